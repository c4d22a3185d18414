// A set cut to an order.
ghost use Rattle.areas.specs.Rows.{held};
ghost use Rattle.rounds.specs.Alphabets.{Listing};

use cutting::cut;
use table::Order;
use table::lists::label_words_of;

// What is left goes to the start of the answer area; how many labels it has is returned.
pub fn cut_to(order: Order, listed: &[u64], set: &[u64], answer: &mut [u64]) -> usize
    ensures { Listing (held set.now) order listed.now answer.old answer.new result }
{
    match order {
        Order::All => cut(true, &listed[..0], set, answer),
        Order::Only(place) => cut(false, label_words_of(listed, place), set, answer),
    }
}
