//! When two operations, and two drawops, are the same.

ghost use Rattle.std.specs.Prelude.{◌≡◌, ◌↔◌, IsTrue};
ghost use Rattle.wb_names.specs.Same.{same_op, same_drawop, same_op_laws, same_drawop_laws};
ghost use Rattle.std.specs.Cmp.{partial_equiv_from_equiv};

use crate::drawop::Drawop;
use crate::parts::Op;

/// Two operations are the same if they are of one kind and all fields are equal.
impl PartialEq for Op {
    ghost eq = { same_op };

    ghost laws = { partial_equiv_from_equiv same_op_laws };

    #[inline]
    fn eq(&self, other: &Op) -> bool
        ensures value { result ≡ same_op self.now other.now }
        ensures same { IsTrue result ↔ (self.now ≡ other.now) }
    {
        match (self, other) {
            (Op::Drawn(figure, stroke), Op::Drawn(f, s)) => figure == f && stroke == s,
            (
                Op::Text { x, y, text },
                Op::Text {
                    x: a,
                    y: b,
                    text: bytes,
                },
            ) => x == a && y == b && text.as_slice() == bytes.as_slice(),
            (Op::Aimed(change, target), Op::Aimed(c, t)) => change == c && target == t,
            _ => false,
        }
    }
}

impl Eq for Op {
    ghost laws = { same_op_laws };
}

/// Two drawops are the same if their names, times and operations are.
impl PartialEq for Drawop {
    ghost eq = { same_drawop };

    ghost laws = { partial_equiv_from_equiv same_drawop_laws };

    #[inline]
    fn eq(&self, other: &Drawop) -> bool
        ensures value { result ≡ same_drawop self.now other.now }
        ensures same { IsTrue result ↔ (self.now ≡ other.now) }
    {
        self.name() == other.name() && self.time() == other.time() && self.op() == other.op()
    }
}

impl Eq for Drawop {
    ghost laws = { same_drawop_laws };
}
