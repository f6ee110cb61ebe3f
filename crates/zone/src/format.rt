// Heads and conditions as bytes.
pub mod bytes;
pub mod conditions;
pub mod decode;
pub mod decode_conditions;
pub mod element_layout;
pub mod head;
pub mod layout;
pub mod limits;
pub mod read_conditions;
pub mod temperatures;
