//! One event of a tier.
ghost use Rattle.std.specs.Prelude.{◌≡◌, ◌∷◌, []};
ghost use Rattle.tier_single.specs.Takes.{Takes};
ghost use Rattle.tier_served.specs.Requests.{event_at};

use crate::serve::Serve;
use cache_words::time::Moment;
use rand_core::Rng;
use tier_model::event::{Action, Answer, Event, TierFault};

// Has a tier take an action at a moment. The event is alive here alone, so no exit of a caller drops it.
pub(crate) fn take_at<T: Serve, R: Rng>(
    tier: &mut T,
    rng: &mut R,
    moment: Moment,
    action: Action,
) -> Result<Answer, TierFault>
    ensures { Takes (T.state tier.old) (R.stream rng.old) (event_at moment action ∷ []) (result ∷ []) (T.state tier.new) (R.stream rng.new) }
{
    tier.take(rng, &Event { moment, action })
}
