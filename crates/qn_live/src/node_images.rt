//! The images of a running node.
ghost use Rattle.std.specs.Prelude.{◌≡◌};

/// On which images a node runs.
#[derive(Clone, Copy, PartialEq, Eq)]
pub enum NodeImages {
    /// On one image.
    One,
    /// On three images, of which any one may be lost.
    Three,
}

impl NodeImages {
    ghost use Rattle.qn_live.specs.ImageCounts.{image_count};

    /// How many images these are.
    pub fn count(self) -> u8
        ensures { result ≡ image_count self }
    {
        match self {
            NodeImages::One => 1,
            NodeImages::Three => 3,
        }
    }
}
