//! A price rule, a tier and the members of a tier that are not the engine's own, each in one file, as somebody else would add
//! them; and what holds of them, and of every other, by the laws of the traits.
#![tactic(auto)]

pub mod dealer_tier;
pub mod dealers;
pub mod laws;
pub mod offer_rule;

#[cfg(test)]
mod tests {
    use crate::dealer_tier::*;
    use crate::dealers::*;
    use crate::laws::*;
    use crate::offer_rule::*;
    use rules::intents::{Side, Standing};
    use rules::prices::PriceRule;
    use rules::prices::midpoint::MidpointRule;
    use rules::prices::step::StepRule;
    use rules::priorities::Priority;
    use rules::priorities::house_tier::HouseTier;
    use rules::priorities::large_tier::{Large, LargeTier};
    use rules::priorities::tier::Tier;
    use rules::priorities::time::Time;
    use rules::worked_examples::WIDE;

    fn standing(subscriber: u32, group: u32, entered: u32, number: u32) -> Standing {
        Standing {
            subscriber,
            group,
            entered,
            number,
        }
    }

    #[test]
    fn own_price_rule_over_the_engines(rt: HostRuntime) {
        let over_step = OfferRule {
            below: StepRule { ticks: 1 },
        };
        let over_midpoint = OfferRule {
            below: MidpointRule,
        };
        assert_eq!(rt; over_step.price_of(&WIDE, Side::Buy), 2020);
        assert_eq!(rt; over_step.price_of(&WIDE, Side::Sell), 2002);
        assert_eq!(rt; over_midpoint.price_of(&WIDE, Side::Sell), 2010);
        assert_eq!(rt; OfferRule::<StepRule>::MARK, 'F');
        assert!(rt; is_within_quote(&over_step, &WIDE, Side::Buy));
    }

    const LARGE_THEN_TIME: LargeTier<Time> = LargeTier {
        members: Large { threshold: 5000 },
        below: Time,
    };

    #[test]
    fn own_tier_between_the_engines(rt: HostRuntime) {
        let pile = HouseTier {
            below: DealerTier {
                dealer: 5,
                below: LARGE_THEN_TIME,
            },
        };
        let by_members = HouseTier {
            below: Tier {
                members: Dealer { dealer: 5 },
                below: LARGE_THEN_TIME,
            },
        };
        // foremost first, for incoming subscriber 7: own by group and time, dealer 5, then large, then the rest by time
        let queue = [
            standing(7, 1, 100, 9),
            standing(7, 2, 9000, 2),
            standing(5, 1, 100, 8),
            standing(6, 1, 5000, 6),
            standing(6, 1, 4999, 1),
            standing(8, 1, 4999, 4),
        ];
        for (i, a) in queue.iter().enumerate() {
            for (j, b) in queue.iter().enumerate() {
                assert_eq!(rt; pile.is_ahead(7, a, b), i < j, "the queue's order");
                assert_eq!(rt; by_members.is_ahead(7, a, b), i < j, "the same by members");
                assert!(rt; is_decided(&pile, 7, a, b));
            }
        }
        assert!(rt; is_carried_over(&pile, 7, &queue[0], &queue[2], &queue[5]));
    }
}
