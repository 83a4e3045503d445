// Where the parts of a key begin; the names of the channels stand first.

// The flags of the channels: 1 enabled, 2 LFE.
pub const FLAGS: usize = 24;

// How many rows each layer has.
pub const LAYER_COUNTS: usize = 48;

// How many anchors each row has.
pub const ROW_COUNTS: usize = 52;

// The names of the anchors.
pub const ANCHOR_NAMES: usize = 76;

// z of each layer, as the pattern of a double.
pub const ZS: usize = 100;

// y of each row.
pub const YS: usize = 104;

// x of each anchor.
pub const XS: usize = 128;

// How many channels there are.
pub const USED: usize = 152;

// How many layers there are.
pub const DEPTH: usize = 153;

pub const EPOCH: usize = 154;
