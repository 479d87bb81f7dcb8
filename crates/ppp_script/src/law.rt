//! What lines and events promise of one another.

ghost use Rattle.std.specs.Prelude.{◌≡◌, ◌≤◌, ℕ, List, Ok};
ghost use Rattle.std.specs.Str.{str_to_ascii_lowercase};
ghost use Rattle.ppp_script.specs.declared.event.Event.{Event};
ghost use Rattle.ppp_script.specs.declared.feed_event.FeedEvent.{FeedEvent};
ghost use Rattle.ppp_script.specs.declared.field.TheConstants.{MOST_LINKS};
ghost use Rattle.ppp_script.specs.Event.{IsWithin, event_text, event_of};
ghost use Rattle.ppp_script.specs.FeedEvent.{IsWithin as IsFeedWithin, feed_text, feed_of};

/// Does nothing. Its clauses are laws: the text of an event whose numbers and octets are within their bounds reads as that
/// event, and a line that reads as an event is its text. A line of a feed is that once its hex digits are put in lower
/// case.
pub fn read_again()
    ensures event { (links : ℕ) (event : Event) → links ≤ MOST_LINKS → IsWithin links event →
        event_of links (event_text event) ≡ Ok event }
    ensures line { (links : ℕ) (line : List ℕ) (event : Event) → event_of links line ≡ Ok event →
        line ≡ event_text event }
    ensures feed_event { (links : ℕ) (event : FeedEvent) → links ≤ MOST_LINKS → IsFeedWithin links event →
        feed_of links (feed_text event) ≡ Ok event }
    ensures feed_line { (links : ℕ) (line : List ℕ) (event : FeedEvent) → feed_of links line ≡ Ok event →
        str_to_ascii_lowercase line ≡ feed_text event }
{}
