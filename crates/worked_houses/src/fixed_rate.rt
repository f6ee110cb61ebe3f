// Hours with the fixed rate, rate code 0 (Specification, Fixed rate): every call that is offered one refuses it, books that hold it are taken up, and the converter
// writes it anew with target and windows open both the rate.
pub mod by_hand;
pub mod calls;
pub mod conversion;
pub mod conversions;
pub mod cuts;
pub mod houses;
pub mod not_converted;
pub mod order;
pub mod refused;
pub mod stored;
pub mod taken_up;
