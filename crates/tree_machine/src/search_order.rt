//! Search order of a tree, and the way of a search down to a leaf, by what a search sees of the nodes.
ghost use Rattle.std.specs.Prelude.{◌≡◌, ◌↔◌, ℕ, Option, IsTrue, nat_lt, if◌then◌else◌};
ghost use Rattle.tree_machine.specs.SearchOrder.{side_of, IsOrdered, KeepsSearchOrder, end_of};

/// A side of an internal node.
#[derive(Clone, Copy, Debug, PartialEq, Eq, Hash)]
pub enum Side {
    Left,
    Right,
}

/// What a search sees of a node.
#[derive(Clone, Copy, Debug, PartialEq, Eq)]
pub enum Shape {
    /// A leaf with its key.
    Leaf { key: u8 },
    /// An internal node with its key and the numbers of its children.
    Internal { key: u8, left: u16, right: u16 },
}

/// Where a search ends: at a leaf, below its parent.
#[derive(Clone, Copy, Debug, PartialEq, Eq)]
pub struct End {
    pub parent: u16,
    pub leaf: u16,
}

/// A memory whose nodes a search can see, by number. The root is node 0.
pub trait Shapes {
    ghost use Rattle.tree_machine.specs.declared.search_order.Shape.{Shape};

    /// What a search sees of each node; none where there is no such node.
    ghost shapes: { Self → ℕ → Option Shape };

    /// What a search sees of a node; none where there is no such node.
    fn shape(&self, x: u16) -> Option<Shape>
        ensures { result ≡ shapes self.now x };
}

/// The side of a node of one key on which another key is looked for.
pub fn side_of(wanted: u8, key: u8) -> Side
    ensures { result ≡ side_of wanted key }
{
    if wanted < key {
        Side::Left
    } else {
        Side::Right
    }
}

/// Whether the tree at a node is in order between two keys. Each internal node splits the keys between them in two. So
/// the walk ends, and it meets no node twice if it returns `true`.
#[tactic(auto, using(crate::proofs::Keys::in_order))]
fn is_ordered<S: Shapes>(memory: &S, low: u8, high: u8, x: u16) -> bool
    ensures { IsTrue result ↔ IsOrdered (S.shapes memory.now) low high x }
{
    match memory.shape(x) {
        None => false,
        Some(Shape::Leaf { key }) => low <= key && key < high,
        Some(Shape::Internal { key, left, right }) => {
            low < key
                && key < high
                && is_ordered(memory, low, key, left)
                && is_ordered(memory, key, high, right)
        }
    }
}

/// Whether the tree keeps search order. It allocates nothing, and returns even where nodes form a cycle.
pub fn keeps_search_order<S: Shapes>(memory: &S) -> bool
    ensures { IsTrue result ↔ KeepsSearchOrder (S.shapes memory.now) }
{
    is_ordered(memory, 0, 103, 0)
}

/// The child of a node of key `other` to which a search for a key goes.
fn child_towards(key: u8, other: u8, left: u16, right: u16) -> u16
    ensures { result ≡ (if nat_lt key other then left else right) }
{
    if key < other { left } else { right }
}

/// Where a search for a key from the root ends, within `levels` levels.
pub fn search_end<S: Shapes>(memory: &S, key: u8, levels: usize) -> End
    ensures { result ≡ end_of (S.shapes memory.now) key levels 0 0 }
{
    let mut parent = 0;
    let mut leaf = 0;
    for _level in 0..levels {
        match memory.shape(leaf) {
            Some(
                Shape::Internal {
                    key: other,
                    left,
                    right,
                },
            ) => {
                parent = leaf;
                leaf = child_towards(key, other, left, right);
            }
            Some(Shape::Leaf { key: _other }) => return End { parent, leaf },
            None => return End { parent, leaf },
        }
    }
    End { parent, leaf }
}
