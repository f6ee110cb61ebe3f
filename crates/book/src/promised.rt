// What is proved of year books, as the contract of one function: a theorem that a contract names cannot go, nor go unproved. It does nothing, and no program
// calls it.
ghost use Rattle.std.specs.Prelude.{ℕ, List};
ghost use Rattle.zone.specs.declared.record.zone_record.Zone.{Zone};
ghost use Rattle.zone.specs.declared.format.limits.Limits.{Limits};
ghost use Rattle.book.specs.Year.{Carried, year_interface};
ghost use Rattle.book.specs.Answers.{rust_types};
ghost use Rattle.book.specs.Model.Calls.{BookState};
ghost use Rattle.book.specs.Model.Plain.{empty, book, WellFormed};
ghost use Rattle.book.specs.Model.Claims.{WholeLists, SessionFrom, HandedOn, Claims};
ghost use Rattle.book.specs.Refusals.{BookRefusals, OneError};
ghost use Rattle.book.specs.VersionOrder.{VersionClaims};
ghost use Rattle.book.specs.Rests.{RestClaims};
ghost use Rattle.book.specs.PlantLimits.{PlantClaims, LimitsApart};
ghost use Rattle.book.specs.RetiredAppends.{RetiredAppends};
ghost use Rattle.book.specs.HouseP.{BeginOfP, BooksOfP};

#[tactic(auto, using(crate::proofs::WholeLists::whole_lists, crate::proofs::WholeLists::session_exactly, crate::proofs::WholeLists::session_from, crate::proofs::WholeLists::handed_on, crate::proofs::WholeLists::year_claims, crate::proofs::Refusals::book_refusals, crate::proofs::Errors::one_error, crate::proofs::VersionOrder::version_claims, crate::proofs::Rests::rest_claims, crate::proofs::PlantLimits::limits_apart, crate::proofs::RetiredAppends::retired_appends, crate::proofs::HouseP::begin_of_p, crate::proofs::HouseP::books_of_p))]
pub fn promises()
    ensures whole_lists { WholeLists year_interface rust_types }
    ensures every_list { SessionFrom year_interface rust_types empty }
    ensures from_any_book { (head : List ℕ) (is : List year_interface.Item) → WellFormed year_interface head is → SessionFrom year_interface rust_types (book head is) }
    ensures handed_on { HandedOn year_interface rust_types (λ r. r.values) }
    ensures books { Claims year_interface }
    ensures refusals { BookRefusals }
    ensures one_error { OneError }
    ensures versions { VersionClaims }
    ensures rests { (head : List ℕ) (is : List year_interface.Item) (S : WellFormed year_interface head is) → RestClaims head is S }
    ensures limits { (z : Zone) (given : BookState Carried) (conditions buf : List ℕ) (l : Limits) → PlantClaims z given conditions buf l }
    ensures limits_apart { LimitsApart }
    ensures retired { RetiredAppends }
    ensures begin_of_p { BeginOfP }
    ensures books_of_p { BooksOfP }
{}
