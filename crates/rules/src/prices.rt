ghost use Rattle.std.specs.Prelude.{◌≡◌, ℕ, IsTrue};
ghost use Rattle.rules.specs.Prices.{WithinQuote};
ghost use Rattle.rules.specs.Quotes.{lawful_quote};
ghost use Rattle.rules.specs.declared.intents.Side.{Side};
ghost use Rattle.rules.specs.declared.quotes.Quote.{Quote};

use crate::intents::Side;
use crate::quotes::Quote;

pub mod midpoint;
pub mod step;

/// A price rule: one price in half ticks for each quote and side of the incoming party. Turns and sweeps know of a rule no
/// more than is said here.
pub trait PriceRule {
    /// The rule's letter on fill slips.
    const MARK: char;

    /// The letter, for contracts.
    ghost MARK: { ℕ };

    /// What the rule means.
    ghost price: { Self → Quote → Side → ℕ };

    /// The price. Any quote may be asked about, and twice any 32-bit number of ticks fits the answer.
    fn price_of(&self, quote: &Quote, side: Side) -> u64
        ensures { result ≡ price self.now quote.now side };

    /// For a lawful quote the price lies between twice the bid and twice the offer, both allowed.
    ghost between: { (rule : Self) (quote : Quote) (side : Side) → IsTrue (lawful_quote quote) → WithinQuote quote (price rule quote side) };
}
