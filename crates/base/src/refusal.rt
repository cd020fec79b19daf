// A refusal: what a part of the model answers where a rule of the table holds.

// A number of the table, and its place: "the port for 3 to 6", the field for 1, else 0.
#[derive(Clone, Copy, PartialEq, Eq)]
pub struct Refusal {
    pub number: u8,
    pub place: u8,
}
