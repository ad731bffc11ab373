//! The summary of whether one symbol can come after another.

ghost use Rattle.std.specs.Prelude.{◌≡◌, ◌||◌};
ghost use Rattle.models.specs.Checked.{tree_of};
ghost use Rattle.summaries.specs.Orders.{OrderIs};

use models::model::Model;
use models::summary::Summary;
use models::summary::work::work_up;
use parts::part::{MOST_PARTS, Repeats};

/// Can the first symbol come after the second.
#[derive(Clone, Copy)]
pub struct After {
    pub first: u32,
    pub second: u32,
}

/// What is told of two symbols.
#[derive(Clone, Copy, Default)]
pub struct Order {
    /// Whether some message has the first after the second.
    pub after: bool,
    /// Whether some message has the first.
    pub first: bool,
    /// Whether some message has the second.
    pub second: bool,
}

impl Summary for After {
    type Value = Order;

    ghost means = { λ self t v. OrderIs self.first self.second t v };

    fn empty(&self) -> Order {
        Order::default()
    }

    fn symbol(&self, symbol: u32) -> Order {
        Order {
            after: false,
            first: symbol == self.first,
            second: symbol == self.second,
        }
    }

    fn choice(&self, left: Order, right: Order) -> Order {
        either(left, right)
    }

    fn sequence(&self, left: Order, right: Order) -> Order {
        let either = either(left, right);
        Order {
            after: either.after | (left.second & right.first),
            ..either
        }
    }

    fn interleave(&self, left: Order, right: Order) -> Order {
        let either = either(left, right);
        let crossed = (left.second & right.first) | (left.first & right.second);
        Order {
            after: either.after | crossed,
            ..either
        }
    }

    // two pieces bring a new order, and high 1 alone allows no second one
    fn count(&self, of: Order, repeats: Repeats) -> Order {
        Order {
            after: of.after | (of.first & of.second & (repeats.high != 1)),
            ..of
        }
    }

    fn nonempty(&self, of: Order) -> Order {
        of
    }
}

// What is so of a message of one or the other.
fn either(left: Order, right: Order) -> Order
    ensures { result ≡ record { after = left.after || right.after; first = left.first || right.first; second = left.second || right.second } }
{
    Order {
        after: left.after | right.after,
        first: left.first | right.first,
        second: left.second | right.second,
    }
}

/// Whether some message of the model has the first symbol after the second,
/// beside whether some message has each. It takes the symbols and not an `After`:
/// a caller has symbols.
pub fn order_of(model: &Model<'_>, first: u32, second: u32) -> Order
    ensures { OrderIs first second (tree_of model.now) result }
{
    // one array for each summary (docs/DECISIONS.md, "Lent slices")
    let after = After { first, second };
    let mut work = [after.empty(); MOST_PARTS];
    work_up(&after, model, &mut work)
}
