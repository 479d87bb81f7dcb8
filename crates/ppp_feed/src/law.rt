//! What a feed promises of its settings.

ghost use Rattle.std.specs.Prelude.{◌≡◌, ℕ, List};
ghost use Rattle.ppp_conf.specs.EndConfig.{EndSettings};
ghost use Rattle.ppp_feed.specs.Feed.{IsFeed};
ghost use Rattle.ppp_script.specs.declared.feed_event.FeedEvent.{FeedEvent};

/// Does nothing. Its clause is a law: settings and lines decide what a feed writes, since two stations that begin by the
/// same settings are the same.
pub fn decided()
    ensures octets { (settings : EndSettings) (events : List FeedEvent) (one other : List ℕ) →
        IsFeed settings events one → IsFeed settings events other → one ≡ other }
{}
