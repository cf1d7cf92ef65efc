// The largest sizes that docs/SCOPE.md allows, and what follows from them.

pub const MOST_VERTICES: usize = 64;

pub const MOST_EDGES: usize = 63;

pub const MOST_TRIANGLES: usize = 256;

// A flat list of edges has two entries an edge.
pub const EDGE_ENTRIES: usize = 2 * MOST_EDGES;

// One of triangles has three a triangle.
pub const TRIANGLE_ENTRIES: usize = 3 * MOST_TRIANGLES;

pub const LARGEST_TRUNCATION: usize = 1000;

pub const MOST_CANDIDATES: usize = 1048576;

// The bytes of a sheet before its edges.
pub const SHEET_HEADER: usize = 11;

// One byte more than the longest sheet has.
pub const INPUT_ROOM: usize = SHEET_HEADER + EDGE_ENTRIES + TRIANGLE_ENTRIES + 1;
