// Ranges, and the tests of a zone, its conditions and its state.
pub mod arguments;
pub mod conditions_tests;
pub mod ranges;
pub mod versions;
pub mod zone_tests;
