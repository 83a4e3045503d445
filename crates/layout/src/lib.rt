// A room as a value: channels, and a topology of layers, rows and anchors.
//
// Everything is flat: the rows stand layer after layer and the anchors row after row, each layer
// with the count of its rows and each row with the count of its anchors. Fields are public, and any
// value may stand in them: the questions look at a count before anything is read by it.
#![tactic(auto)]

mod build;
mod refusal;
mod starts;

pub use refusal::{Refusal, ask};
pub use starts::{
    anchor_starts, anchor_total, covered_layers, next_start, reach, row_starts, row_total,
};

// A name is up to eight bytes, the first one lowest, with zeros behind.
#[derive(Clone, Copy, Default)]
pub struct Channel {
    pub name: u64,
    pub enabled: bool,
    pub lfe: bool,
}

#[derive(Clone, Copy, Default)]
pub struct Anchor {
    pub name: u64,
    pub x: f64,
}

#[derive(Clone, Copy, Default)]
pub struct Row {
    pub y: f64,
    pub count: usize,
}

// Of `Row`'s shape, and apart: document 01 names both, and y is no z.
#[derive(Clone, Copy, Default)]
pub struct Layer {
    pub z: f64,
    pub count: usize,
}

// Where an object stands in a room. `extent::Extent` has its shape, and is no place.
#[derive(Clone, Copy, Default)]
pub struct Centre {
    pub x: f64,
    pub y: f64,
    pub z: f64,
}

// Arrays with the counts of what they hold: document 01 names the places, and there is no heap.
#[derive(Clone, Copy)]
pub struct Layout {
    pub channels: [Channel; 24],
    pub used: usize,
    pub layers: [Layer; 4],
    pub depth: usize,
    pub rows: [Row; 24],
    pub anchors: [Anchor; 24],
}
