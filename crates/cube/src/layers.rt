//! Quarter turns of the pieces. Each is a table of the places that the pieces at the places in
//! order come from, and of how they are twisted and flipped on the way.

ghost use Rattle.std.specs.Prelude.{◌≡◌};
ghost use Rattle.cube.specs.{model.Pieces.colours_of, Turns.rotation};
ghost use Rattle.cube.specs.Turns.{turned as turned_by, quarter_turned as quarter_turned_by};

use crate::moves::{Axis, Kind, Move, Quarter, Side};
use crate::pieces::{Facing, Pieces};

impl Pieces {
    /// After a quarter turn of the upper layer.
    fn up_turned(self) -> Pieces
        ensures { colours_of result ≡ quarter_turned_by (Kind.Face Side.U) (colours_of self) }
    {
        let [urf, ufl, ulb, ubr, dfr, dlf, dbl, drb] = self.corners;
        let [ur, uf, ul, ub, dr, df, dl, db, fr, fl, bl, br] = self.edges;
        Pieces {
            corners: [ubr, urf, ufl, ulb, dfr, dlf, dbl, drb],
            edges: [ub, ur, uf, ul, dr, df, dl, db, fr, fl, bl, br],
            facing: self.facing,
        }
    }

    /// After a quarter turn of the right layer.
    fn right_turned(self) -> Pieces
        ensures { colours_of result ≡ quarter_turned_by (Kind.Face Side.R) (colours_of self) }
    {
        let [urf, ufl, ulb, ubr, dfr, dlf, dbl, drb] = self.corners;
        let [ur, uf, ul, ub, dr, df, dl, db, fr, fl, bl, br] = self.edges;
        let urf = urf.clockwise();
        let ubr = ubr.anticlockwise();
        let dfr = dfr.anticlockwise();
        let drb = drb.clockwise();
        Pieces {
            corners: [dfr, ufl, ulb, urf, drb, dlf, dbl, ubr],
            edges: [fr, uf, ul, ub, br, df, dl, db, dr, fl, bl, ur],
            facing: self.facing,
        }
    }

    /// After a quarter turn of the front layer.
    fn front_turned(self) -> Pieces
        ensures { colours_of result ≡ quarter_turned_by (Kind.Face Side.F) (colours_of self) }
    {
        let [urf, ufl, ulb, ubr, dfr, dlf, dbl, drb] = self.corners;
        let [ur, uf, ul, ub, dr, df, dl, db, fr, fl, bl, br] = self.edges;
        let urf = urf.anticlockwise();
        let ufl = ufl.clockwise();
        let dfr = dfr.clockwise();
        let dlf = dlf.anticlockwise();
        let uf = uf.flip();
        let df = df.flip();
        let fr = fr.flip();
        let fl = fl.flip();
        Pieces {
            corners: [ufl, dlf, ulb, ubr, urf, dfr, dbl, drb],
            edges: [ur, fl, ul, ub, dr, fr, dl, db, uf, df, bl, br],
            facing: self.facing,
        }
    }

    /// After a quarter turn of the lower layer.
    fn down_turned(self) -> Pieces
        ensures { colours_of result ≡ quarter_turned_by (Kind.Face Side.D) (colours_of self) }
    {
        let [urf, ufl, ulb, ubr, dfr, dlf, dbl, drb] = self.corners;
        let [ur, uf, ul, ub, dr, df, dl, db, fr, fl, bl, br] = self.edges;
        Pieces {
            corners: [urf, ufl, ulb, ubr, dlf, dbl, drb, dfr],
            edges: [ur, uf, ul, ub, df, dl, db, dr, fr, fl, bl, br],
            facing: self.facing,
        }
    }

    /// After a quarter turn of the left layer.
    fn left_turned(self) -> Pieces
        ensures { colours_of result ≡ quarter_turned_by (Kind.Face Side.L) (colours_of self) }
    {
        let [urf, ufl, ulb, ubr, dfr, dlf, dbl, drb] = self.corners;
        let [ur, uf, ul, ub, dr, df, dl, db, fr, fl, bl, br] = self.edges;
        let ufl = ufl.anticlockwise();
        let ulb = ulb.clockwise();
        let dlf = dlf.clockwise();
        let dbl = dbl.anticlockwise();
        Pieces {
            corners: [urf, ulb, dbl, ubr, dfr, ufl, dlf, drb],
            edges: [ur, uf, bl, ub, dr, df, fl, db, fr, ul, dl, br],
            facing: self.facing,
        }
    }

    /// After a quarter turn of the back layer.
    fn back_turned(self) -> Pieces
        ensures { colours_of result ≡ quarter_turned_by (Kind.Face Side.B) (colours_of self) }
    {
        let [urf, ufl, ulb, ubr, dfr, dlf, dbl, drb] = self.corners;
        let [ur, uf, ul, ub, dr, df, dl, db, fr, fl, bl, br] = self.edges;
        let ulb = ulb.anticlockwise();
        let ubr = ubr.clockwise();
        let dbl = dbl.clockwise();
        let drb = drb.anticlockwise();
        let ub = ub.flip();
        let db = db.flip();
        let bl = bl.flip();
        let br = br.flip();
        Pieces {
            corners: [urf, ufl, ubr, drb, dfr, dlf, ulb, dbl],
            edges: [ur, uf, ul, br, dr, df, dl, bl, fr, fl, ub, db],
            facing: self.facing,
        }
    }

    /// After a quarter turn of the whole cube in the direction of the right side.
    fn turned_about_x(self) -> Pieces
        ensures { colours_of result ≡ quarter_turned_by (Kind.Turn Axis.X) (colours_of self) }
    {
        let [urf, ufl, ulb, ubr, dfr, dlf, dbl, drb] = self.corners;
        let [ur, uf, ul, ub, dr, df, dl, db, fr, fl, bl, br] = self.edges;
        let urf = urf.clockwise();
        let ufl = ufl.anticlockwise();
        let ulb = ulb.clockwise();
        let ubr = ubr.anticlockwise();
        let dfr = dfr.anticlockwise();
        let dlf = dlf.clockwise();
        let dbl = dbl.anticlockwise();
        let drb = drb.clockwise();
        let uf = uf.flip();
        let ub = ub.flip();
        let df = df.flip();
        let db = db.flip();
        Pieces {
            corners: [dfr, dlf, ufl, urf, drb, dbl, ulb, ubr],
            edges: [fr, df, fl, uf, br, db, bl, ub, dr, dl, ul, ur],
            facing: Facing {
                up: self.facing.front,
                right: self.facing.right,
                front: self.facing.up.opposite(),
            },
        }
    }

    /// After a quarter turn of the whole cube in the direction of the upper side.
    fn turned_about_y(self) -> Pieces
        ensures { colours_of result ≡ quarter_turned_by (Kind.Turn Axis.Y) (colours_of self) }
    {
        let [urf, ufl, ulb, ubr, dfr, dlf, dbl, drb] = self.corners;
        let [ur, uf, ul, ub, dr, df, dl, db, fr, fl, bl, br] = self.edges;
        let fr = fr.flip();
        let fl = fl.flip();
        let bl = bl.flip();
        let br = br.flip();
        Pieces {
            corners: [ubr, urf, ufl, ulb, drb, dfr, dlf, dbl],
            edges: [ub, ur, uf, ul, db, dr, df, dl, br, fr, fl, bl],
            facing: Facing {
                up: self.facing.up,
                right: self.facing.front.opposite(),
                front: self.facing.right,
            },
        }
    }

    /// After a quarter turn of the whole cube in the direction of the front side.
    fn turned_about_z(self) -> Pieces
        ensures { colours_of result ≡ quarter_turned_by (Kind.Turn Axis.Z) (colours_of self) }
    {
        let [urf, ufl, ulb, ubr, dfr, dlf, dbl, drb] = self.corners;
        let [ur, uf, ul, ub, dr, df, dl, db, fr, fl, bl, br] = self.edges;
        let urf = urf.anticlockwise();
        let ufl = ufl.clockwise();
        let ulb = ulb.anticlockwise();
        let ubr = ubr.clockwise();
        let dfr = dfr.clockwise();
        let dlf = dlf.anticlockwise();
        let dbl = dbl.clockwise();
        let drb = drb.anticlockwise();
        let ur = ur.flip();
        let uf = uf.flip();
        let ul = ul.flip();
        let ub = ub.flip();
        let dr = dr.flip();
        let df = df.flip();
        let dl = dl.flip();
        let db = db.flip();
        let fr = fr.flip();
        let fl = fl.flip();
        let bl = bl.flip();
        let br = br.flip();
        Pieces {
            corners: [ufl, dlf, dbl, ulb, urf, dfr, drb, ubr],
            edges: [ul, fl, dl, bl, ur, fr, dr, br, uf, df, db, ub],
            facing: Facing {
                up: self.facing.right.opposite(),
                right: self.facing.up,
                front: self.facing.front,
            },
        }
    }

    /// After a quarter turn of the layer at a side.
    fn face_turned(self, side: Side) -> Pieces
        ensures { colours_of result ≡ quarter_turned_by (Kind.Face side) (colours_of self) }
    {
        match side {
            Side::U => self.up_turned(),
            Side::R => self.right_turned(),
            Side::F => self.front_turned(),
            Side::D => self.down_turned(),
            Side::L => self.left_turned(),
            Side::B => self.back_turned(),
        }
    }

    /// After a quarter turn of the whole cube about an axis.
    fn rotated(self, axis: Axis) -> Pieces
        ensures { colours_of result ≡ quarter_turned_by (Kind.Turn axis) (colours_of self) }
    {
        match axis {
            Axis::X => self.turned_about_x(),
            Axis::Y => self.turned_about_y(),
            Axis::Z => self.turned_about_z(),
        }
    }

    /// After a quarter turn of the whole cube in the direction of a side.
    fn rotated_with(self, side: Side) -> Pieces
        ensures { colours_of result ≡ turned_by (rotation side) (colours_of self) }
    {
        match side {
            Side::U => self.rotated(Axis::Y),
            Side::R => self.rotated(Axis::X),
            Side::F => self.rotated(Axis::Z),
            Side::D => self.rotated(Axis::Y).rotated(Axis::Y).rotated(Axis::Y),
            Side::L => self.rotated(Axis::X).rotated(Axis::X).rotated(Axis::X),
            Side::B => self.rotated(Axis::Z).rotated(Axis::Z).rotated(Axis::Z),
        }
    }

    /// After a quarter turn of what a move turns. A block is turned as the opposite face and the
    /// whole cube.
    fn quarter_turned(self, kind: Kind) -> Pieces
        ensures { colours_of result ≡ quarter_turned_by kind (colours_of self) }
    {
        match kind {
            Kind::Face(side) => self.face_turned(side),
            Kind::Block(side) => self.face_turned(side.opposite()).rotated_with(side),
            Kind::Turn(axis) => self.rotated(axis),
        }
    }

    /// After a move.
    pub fn turned(self, turn: Move) -> Pieces
        ensures { colours_of result ≡ turned_by turn (colours_of self) }
    {
        let once = self.quarter_turned(turn.kind);
        match turn.quarter {
            Quarter::Clockwise => once,
            Quarter::Half => once.quarter_turned(turn.kind),
            Quarter::Anticlockwise => once.quarter_turned(turn.kind).quarter_turned(turn.kind),
        }
    }
}
