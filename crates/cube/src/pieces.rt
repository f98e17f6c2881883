//! The cube as it is kept: which corner is at each corner's place and how it is twisted, which edge
//! is at each edge's place and whether it is flipped, and how the centres face.

ghost use Rattle.std.specs.Prelude.{◌≡◌};
ghost use Rattle.cube.specs.model.Pieces.{corner_piece_colours, edge_piece_colours, corner_colours};
ghost use Rattle.cube.specs.model.Pieces.{edge_colours, colours_of};

use crate::moves::Colour;

/// A corner, named by its colours: that of the upper or lower side first, and then on clockwise.
#[derive(Clone, Copy, PartialEq, Eq, Debug)]
pub enum CornerPiece {
    Urf,
    Ufl,
    Ulb,
    Ubr,
    Dfr,
    Dlf,
    Dbl,
    Drb,
}

/// How a corner is twisted: its first colour shows at the upper or lower side, or one side on from
/// there, clockwise or against the clock.
#[derive(Clone, Copy, PartialEq, Eq, Debug)]
pub enum Twist {
    Upright,
    Clockwise,
    Anticlockwise,
}

/// A corner and its twist.
#[derive(Clone, Copy, PartialEq, Eq, Debug)]
pub struct Corner {
    pub piece: CornerPiece,
    pub twist: Twist,
}

/// An edge, named by its colours: that of the upper, lower, front or back side first.
#[derive(Clone, Copy, PartialEq, Eq, Debug)]
pub enum EdgePiece {
    Ur,
    Uf,
    Ul,
    Ub,
    Dr,
    Df,
    Dl,
    Db,
    Fr,
    Fl,
    Bl,
    Br,
}

/// An edge, and whether its first colour shows where the second of its place would.
#[derive(Clone, Copy, PartialEq, Eq, Debug)]
pub struct Edge {
    pub piece: EdgePiece,
    pub flipped: bool,
}

/// How the centres face: the colours of three of them. The other three are opposite to these.
#[derive(Clone, Copy, PartialEq, Eq, Debug)]
pub struct Facing {
    pub up: Colour,
    pub right: Colour,
    pub front: Colour,
}

/// The pieces of a cube at the places of corners and edges, in the order in which
/// `CornerPiece` and `EdgePiece` name them.
#[derive(Clone, Copy, PartialEq, Eq, Debug)]
pub struct Pieces {
    pub corners: [Corner; 8],
    pub edges: [Edge; 12],
    pub facing: Facing,
}

/// The pieces of the first arrangement: each at home, none twisted or flipped.
pub const SOLVED: Pieces = Pieces {
    corners: [
        Corner {
            piece: CornerPiece::Urf,
            twist: Twist::Upright,
        },
        Corner {
            piece: CornerPiece::Ufl,
            twist: Twist::Upright,
        },
        Corner {
            piece: CornerPiece::Ulb,
            twist: Twist::Upright,
        },
        Corner {
            piece: CornerPiece::Ubr,
            twist: Twist::Upright,
        },
        Corner {
            piece: CornerPiece::Dfr,
            twist: Twist::Upright,
        },
        Corner {
            piece: CornerPiece::Dlf,
            twist: Twist::Upright,
        },
        Corner {
            piece: CornerPiece::Dbl,
            twist: Twist::Upright,
        },
        Corner {
            piece: CornerPiece::Drb,
            twist: Twist::Upright,
        },
    ],
    edges: [
        Edge {
            piece: EdgePiece::Ur,
            flipped: false,
        },
        Edge {
            piece: EdgePiece::Uf,
            flipped: false,
        },
        Edge {
            piece: EdgePiece::Ul,
            flipped: false,
        },
        Edge {
            piece: EdgePiece::Ub,
            flipped: false,
        },
        Edge {
            piece: EdgePiece::Dr,
            flipped: false,
        },
        Edge {
            piece: EdgePiece::Df,
            flipped: false,
        },
        Edge {
            piece: EdgePiece::Dl,
            flipped: false,
        },
        Edge {
            piece: EdgePiece::Db,
            flipped: false,
        },
        Edge {
            piece: EdgePiece::Fr,
            flipped: false,
        },
        Edge {
            piece: EdgePiece::Fl,
            flipped: false,
        },
        Edge {
            piece: EdgePiece::Bl,
            flipped: false,
        },
        Edge {
            piece: EdgePiece::Br,
            flipped: false,
        },
    ],
    facing: Facing {
        up: Colour::U,
        right: Colour::R,
        front: Colour::F,
    },
};

impl CornerPiece {
    /// Its colours, clockwise from that of the upper or lower side.
    fn colours(self) -> (Colour, Colour, Colour)
        ensures { result ≡ corner_piece_colours self }
    {
        match self {
            CornerPiece::Urf => (Colour::U, Colour::R, Colour::F),
            CornerPiece::Ufl => (Colour::U, Colour::F, Colour::L),
            CornerPiece::Ulb => (Colour::U, Colour::L, Colour::B),
            CornerPiece::Ubr => (Colour::U, Colour::B, Colour::R),
            CornerPiece::Dfr => (Colour::D, Colour::F, Colour::R),
            CornerPiece::Dlf => (Colour::D, Colour::L, Colour::F),
            CornerPiece::Dbl => (Colour::D, Colour::B, Colour::L),
            CornerPiece::Drb => (Colour::D, Colour::R, Colour::B),
        }
    }
}

impl EdgePiece {
    /// Its colours, that of the upper, lower, front or back side first.
    fn colours(self) -> (Colour, Colour)
        ensures { result ≡ edge_piece_colours self }
    {
        match self {
            EdgePiece::Ur => (Colour::U, Colour::R),
            EdgePiece::Uf => (Colour::U, Colour::F),
            EdgePiece::Ul => (Colour::U, Colour::L),
            EdgePiece::Ub => (Colour::U, Colour::B),
            EdgePiece::Dr => (Colour::D, Colour::R),
            EdgePiece::Df => (Colour::D, Colour::F),
            EdgePiece::Dl => (Colour::D, Colour::L),
            EdgePiece::Db => (Colour::D, Colour::B),
            EdgePiece::Fr => (Colour::F, Colour::R),
            EdgePiece::Fl => (Colour::F, Colour::L),
            EdgePiece::Bl => (Colour::B, Colour::L),
            EdgePiece::Br => (Colour::B, Colour::R),
        }
    }
}

impl Corner {
    /// The colours that it shows, clockwise from the upper or lower side.
    #[tactic(auto, unfolding(crate::specs::model::Pieces::corner_colours))]
    pub fn colours(self) -> (Colour, Colour, Colour)
        ensures { result ≡ corner_colours self }
    {
        let (first, second, third) = self.piece.colours();
        match self.twist {
            Twist::Upright => (first, second, third),
            Twist::Clockwise => (third, first, second),
            Twist::Anticlockwise => (second, third, first),
        }
    }

    /// The corner after a third of a turn clockwise.
    #[tactic(auto, unfolding(crate::specs::model::Pieces::corner_colours))]
    pub fn clockwise(self) -> Corner
        ensures { corner_colours result ≡ (let c = corner_colours self in (c.2, c.0, c.1)) }
    {
        let twist = match self.twist {
            Twist::Upright => Twist::Clockwise,
            Twist::Clockwise => Twist::Anticlockwise,
            Twist::Anticlockwise => Twist::Upright,
        };
        Corner {
            piece: self.piece,
            twist,
        }
    }

    /// The corner after a third of a turn against the clock.
    #[tactic(auto, unfolding(crate::specs::model::Pieces::corner_colours))]
    pub fn anticlockwise(self) -> Corner
        ensures { corner_colours result ≡ (let c = corner_colours self in (c.1, c.2, c.0)) }
    {
        let twist = match self.twist {
            Twist::Upright => Twist::Anticlockwise,
            Twist::Clockwise => Twist::Upright,
            Twist::Anticlockwise => Twist::Clockwise,
        };
        Corner {
            piece: self.piece,
            twist,
        }
    }
}

impl Edge {
    /// The colours that it shows.
    #[tactic(auto, unfolding(crate::specs::model::Pieces::edge_colours))]
    pub fn colours(self) -> (Colour, Colour)
        ensures { result ≡ edge_colours self }
    {
        let (first, second) = self.piece.colours();
        if self.flipped {
            (second, first)
        } else {
            (first, second)
        }
    }

    /// The edge turned over.
    #[tactic(auto, unfolding(crate::specs::model::Pieces::edge_colours))]
    pub fn flip(self) -> Edge
        ensures { edge_colours result ≡ (let e = edge_colours self in (e.1, e.0)) }
    {
        Edge {
            piece: self.piece,
            flipped: !self.flipped,
        }
    }
}

impl Pieces {
    /// The colours of the 54 stickers by number.
    pub fn colours(&self) -> [Colour; 54]
        ensures { result ≡ colours_of self.now }
    {
        let urf = self.corners[0].colours();
        let ufl = self.corners[1].colours();
        let ulb = self.corners[2].colours();
        let ubr = self.corners[3].colours();
        let dfr = self.corners[4].colours();
        let dlf = self.corners[5].colours();
        let dbl = self.corners[6].colours();
        let drb = self.corners[7].colours();
        let ur = self.edges[0].colours();
        let uf = self.edges[1].colours();
        let ul = self.edges[2].colours();
        let ub = self.edges[3].colours();
        let dr = self.edges[4].colours();
        let df = self.edges[5].colours();
        let dl = self.edges[6].colours();
        let db = self.edges[7].colours();
        let fr = self.edges[8].colours();
        let fl = self.edges[9].colours();
        let bl = self.edges[10].colours();
        let br = self.edges[11].colours();
        let Facing { up, right, front } = self.facing;
        [
            ulb.0,
            ul.0,
            ufl.0,
            ub.0,
            up,
            uf.0,
            ubr.0,
            ur.0,
            urf.0,
            drb.1,
            dr.1,
            dfr.2,
            br.1,
            right,
            fr.1,
            ubr.2,
            ur.1,
            urf.1,
            dlf.2,
            fl.0,
            ufl.1,
            df.1,
            front,
            uf.1,
            dfr.1,
            fr.0,
            urf.2,
            dbl.0,
            dl.0,
            dlf.0,
            db.0,
            up.opposite(),
            df.0,
            drb.0,
            dr.0,
            dfr.0,
            dbl.2,
            dl.1,
            dlf.1,
            bl.1,
            right.opposite(),
            fl.1,
            ulb.1,
            ul.1,
            ufl.2,
            dbl.1,
            bl.0,
            ulb.2,
            db.1,
            front.opposite(),
            ub.1,
            drb.2,
            br.0,
            ubr.1,
        ]
    }
}
