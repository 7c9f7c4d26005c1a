use pc_list::{Seq, Text};

/// How a segment is filled.
#[derive(Clone, Copy, Debug, PartialEq, Eq)]
pub enum Tone {
    Grey,
    Blue,
    Pale,
}

/// What the tones stand for: a text for each, where the palest may have none.
#[derive(Debug, Drop)]
pub struct Legend {
    pub grey: Text,
    pub blue: Text,
    pub pale: Option<Text>,
}

/// A piece of a bar: where it begins and where it ends, in millionths, in either order.
#[derive(Clone, Copy, Debug)]
pub struct Segment {
    pub from: i128,
    pub to: i128,
    pub tone: Tone,
}

/// A row: what stands left of the axis, the segments on it, and what stands right of it.
#[derive(Debug, Drop)]
pub struct BarRow {
    pub name: Text,
    pub text: Text,
    pub segments: Seq<Segment>,
}

/// Rows on one axis, below a title.
#[derive(Debug, Drop)]
pub struct BarPicture {
    pub title: Text,
    pub rows: Seq<BarRow>,
}
