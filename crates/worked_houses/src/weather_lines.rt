// Weather of a file's line (Specification, Weather of a line), row by row: fields, lines of files, and a house in the weather of a line.
pub mod fields;
pub mod file;
pub mod house;
pub mod lines;
pub mod read;
