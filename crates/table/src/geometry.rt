// The size of a table, and where its words lie.
ghost use Rattle.std.specs.Prelude.{◌≡◌};
ghost use Rattle.table.specs.Geometry.{geometry_of, words_of, Placed};

// Nodes N, items M, frames per node F. Types this narrow keep every address from overflowing.
#[derive(Clone, Copy)]
pub struct Geometry {
    pub nodes: u8,
    pub items: u16,
    pub frames: u16,
}

impl Geometry {
    pub const NODES_MIN: u64 = 3;

    pub const NODES_MAX: u64 = 16;

    pub const ITEMS_MIN: u64 = 1;

    pub const ITEMS_MAX: u64 = 256;

    pub const FRAMES_MIN: u64 = 1;

    pub const FRAMES_MAX: u64 = 512;

    // The words of an entry: state word, current value, kept value.
    pub const ENTRY_WORDS: usize = 3;

    // The geometry of these numbers, if it is allowed: in the ranges, and with frames for four copies of an item.
    pub fn new(nodes: u64, items: u64, frames: u64) -> Option<Geometry>
        ensures { result ≡ geometry_of nodes items frames }
    {
        let ranges = (Geometry::NODES_MIN <= nodes)
            & ((nodes <= Geometry::NODES_MAX)
                & ((Geometry::ITEMS_MIN <= items)
                    & ((items <= Geometry::ITEMS_MAX)
                        & ((Geometry::FRAMES_MIN <= frames) & (frames <= Geometry::FRAMES_MAX)))));
        if !ranges {
            return None;
        }
        let reserved = (frames == 2 * items) | (4 * items - 1 <= (nodes - 2) * frames);
        if !reserved {
            return None;
        }
        Some(Geometry {
            nodes: nodes as u8,
            items: items as u16,
            frames: frames as u16,
        })
    }

    // The words of a table.
    pub fn words(self) -> usize
        ensures { result ≡ words_of self }
    {
        let nodes = self.nodes as usize;
        let items = self.items as usize;
        1 + nodes + Geometry::ENTRY_WORDS * (nodes * items)
    }

    // The place of a node's entry of an item: its state word.
    pub fn entry_at(self, node: u8, item: u16) -> usize
        ensures { Placed self node item result }
    {
        let nodes = self.nodes as usize;
        let items = self.items as usize;
        let cell = (node as usize) * items + item as usize;
        1 + nodes + Geometry::ENTRY_WORDS * cell
    }
}
