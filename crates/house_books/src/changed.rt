// Bytes changed for a question, and put back.
ghost use Rattle.std.specs.Prelude.{◌≡◌};
ghost use Rattle.std.specs.Fn.{FnOnceReturnsAt};
ghost use Rattle.big_endian.specs.Bytes.{written};

use big_endian::{bytes_at, put_bytes};

// What is answered of these bytes with some of them changed.
#[tactic(auto, using(crate::proofs::Laws::PutBack::put_back))]
pub fn with_bytes<const N: usize, R, F: FnOnce(&[u8]) -> R>(
    b: &mut [u8],
    place: usize,
    bytes: [u8; N],
    ask: F,
) -> R
    requires { F.IsAlwaysCallable ask }
    ensures asked { FnOnceReturnsAt F.FnOnce ask (written b.old place bytes.entry) result }
    ensures back { b.new ≡ b.old }
{
    let own = bytes_at::<N>(b, place);
    put_bytes(b, place, &bytes);
    let answer = ask(b);
    put_bytes(b, place, &own);
    answer
}
