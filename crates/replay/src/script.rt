// The words of a script's line, and the numbers, nodes and methods that words write.
pub mod number;
pub mod word;
