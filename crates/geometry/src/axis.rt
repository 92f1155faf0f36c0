// The three axes, and the six orders in which a solid can be cut along them.
ghost use Rattle.std.specs.Prelude.{◌≡◌, Some};
ghost use Rattle.geometry.specs.Axes.{axes_of, by_axis};
ghost use Rattle.geometry.specs.Words.{order_word};

use std::fmt;

#[derive(Clone, Copy, PartialEq, Eq, Debug)]
pub enum Axis {
    X,
    Y,
    Z,
}

impl Axis {
    // The one of three values that belongs to the axis.
    pub fn pick<T: Copy>(self, x: T, y: T, z: T) -> T
        ensures { result ≡ by_axis x y z self }
    {
        match self {
            Axis::X => x,
            Axis::Y => y,
            Axis::Z => z,
        }
    }
}

// The letters name the axes A, B and C, as Yxz has A = y, B = x and C = z.
#[derive(Clone, Copy, PartialEq, Eq, Debug)]
pub enum AxisOrder {
    Xyz,
    Xzy,
    Yxz,
    Yzx,
    Zxy,
    Zyx,
}

impl AxisOrder {
    // The axes A, B and C.
    pub fn axes(self) -> (Axis, Axis, Axis)
        ensures { result ≡ axes_of self }
    {
        match self {
            AxisOrder::Xyz => (Axis::X, Axis::Y, Axis::Z),
            AxisOrder::Xzy => (Axis::X, Axis::Z, Axis::Y),
            AxisOrder::Yxz => (Axis::Y, Axis::X, Axis::Z),
            AxisOrder::Yzx => (Axis::Y, Axis::Z, Axis::X),
            AxisOrder::Zxy => (Axis::Z, Axis::X, Axis::Y),
            AxisOrder::Zyx => (Axis::Z, Axis::Y, Axis::X),
        }
    }
}

// The letters of the axes A, B and C.
impl fmt::Display for AxisOrder {
    ghost output = { λ o. Some (order_word o) };

    fn fmt<W: fmt::Write>(&self, f: &mut fmt::Formatter<W>) -> fmt::Result {
        f.write_str(match self {
            AxisOrder::Xyz => "XYZ",
            AxisOrder::Xzy => "XZY",
            AxisOrder::Yxz => "YXZ",
            AxisOrder::Yzx => "YZX",
            AxisOrder::Zxy => "ZXY",
            AxisOrder::Zyx => "ZYX",
        })
    }
}
