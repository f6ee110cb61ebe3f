// What is proved of the questions and the converter, as the contract of one function: a theorem that a contract names cannot go, nor go unproved. It does
// nothing, and no program calls it.
ghost use Rattle.tools.specs.Claims.{QuestionClaims};
ghost use Rattle.tools.specs.ConvertClaims.{ConvertClaims};
ghost use Rattle.tools.specs.Refusals.{QuestionRefusals, ConvertRefusals, OneError};

#[tactic(auto, using(crate::proofs::Claims::question_claims, crate::proofs::Refusals::question_refusals, crate::proofs::ConvertClaims::convert_claims, crate::proofs::Refusals::convert_refusals, crate::proofs::Errors::one_error))]
pub fn promises()
    ensures questions { QuestionClaims }
    ensures question_refusals { QuestionRefusals }
    ensures conversion { ConvertClaims }
    ensures convert_refusals { ConvertRefusals }
    ensures one_error { OneError }
{}
