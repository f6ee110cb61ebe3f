// A book whose hours with the fixed rate are written anew.
ghost use Rattle.std.specs.Prelude.{◌≡◌};
ghost use Rattle.hem_zone.specs.Convert.{hem_convert_outcome};

use crate::code::refusal_code;
use tools::convert;

// Into the first bytes of `out`; its count and used length into `count` and `used`.
#[tactic(auto, unfolding(crate::specs::Convert::hem_convert_outcome, crate::specs::Code::answered, crate::specs::Code::answer_code, crate::specs::Code::lent_after))]
#[unsafe(no_mangle)]
pub extern "C" fn hem_convert(bytes: &[u8], out: &mut [u8], count: &mut u64, used: &mut u64) -> u32
    ensures { (result, (out.new, (count.new, used.new))) ≡ hem_convert_outcome bytes.now out.old count.old used.old }
{
    match convert(bytes, out) {
        Err(error) => refusal_code(error.number(), error.index()),
        Ok(converted) => {
            *count = converted.count as u64;
            *used = converted.used as u64;
            0
        }
    }
}
