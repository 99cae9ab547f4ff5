// The order in which a collector may show its cells.
ghost use Rattle.std.specs.Prelude.{◌≡◌, if◌then◌else◌};
ghost use Rattle.std.specs.Ordering.{ordering_reverse};
ghost use Rattle.std.specs.declared.cmp.Ordering.TheVariants.{Less, Greater};
ghost use Rattle.rows.specs.Orders.{LawfulCells, order_cells};

use kinds::Ordered;
use std::cmp::Ordering;

// Rising or falling, and where nulls stand, which the direction does not alter.
#[derive(Clone, Copy, PartialEq, Eq, Debug)]
pub struct SortOptions {
    pub descending: bool,
    pub nulls_first: bool,
}

impl SortOptions {
    // How a null stands to a cue. No derive says it, since the options are values.
    fn null_to_cue(self) -> Ordering
        ensures { result ≡ (if self.nulls_first then Less else Greater) }
    {
        if self.nulls_first {
            Ordering::Less
        } else {
            Ordering::Greater
        }
    }

    // An order of cues, turned round where they are to fall.
    fn directed(self, order: Ordering) -> Ordering
        ensures { result ≡ (if self.descending then ordering_reverse order else order) }
    {
        if self.descending {
            order.reverse()
        } else {
            order
        }
    }
}

// How one cell stands to another.
pub fn compare_cells<K: Ordered>(options: SortOptions, a: &Option<K>, b: &Option<K>) -> Ordering
    ensures order { result ≡ order_cells K.Ordered.order options a.now b.now }
    ensures lawful { LawfulCells K.Ordered.order K.Keyed.same options }
{
    match (a, b) {
        (None, None) => Ordering::Equal,
        (None, Some(_)) => options.null_to_cue(),
        (Some(_), None) => options.null_to_cue().reverse(),
        (Some(one), Some(two)) => options.directed(one.compare(two)),
    }
}
