//! What holds of two ends that ask for links, in every run. These functions answer nothing: each carries its laws as its clauses.

ghost use Rattle.ppp_pair.specs.Close.{ClosesSo, Kept, SoCloses};
ghost use Rattle.ppp_pair.specs.Crossing.{Crossing};
ghost use Rattle.ppp_pair.specs.Delivery.{CrossingOnce, Included, KeptOnce};
ghost use Rattle.ppp_pair.specs.Match.{Matching};
ghost use Rattle.ppp_pair.specs.Memory.{Remembered};
ghost use Rattle.ppp_pair.specs.Possibility.{IsOnceClosed, IsOnceGranted};

/// No two requests that cross are both granted, whatever happens. Two of the two ends cross where each was first sent before its end
/// took any copy of the other (RFC 2125 speaks of a race).
pub fn crossing()
    ensures { Crossing }
{}

/// Clauses on links that close under a grant, whatever happens and at both ends.
///
/// - `kept`: then some other link is joined there and unmarked, and the other end hasn't closed it under a grant since this end last
///   joined it.
/// - `only`: a response closes a link only where the request that waits is to drop it, and is granted by that response, and another
///   joined and unmarked link is there.
/// - `closes`: then it does.
pub fn kept()
    ensures kept { Kept }
    ensures only { ClosesSo }
    ensures closes { SoCloses }
{}

/// Requests are granted, and links close under a grant: so neither law above speaks of nothing.
///
/// - `granted`: in some run a request is granted.
/// - `closed`: behind some run a link closes under a grant.
pub fn possible()
    ensures granted { IsOnceGranted }
    ensures closed { IsOnceClosed }
{}

/// An Identifier of 8 bits tells the requests apart, whatever happens and at both ends: a response that is under way to an end whose
/// request waits, and has its Identifier, is one to it, ordinal and Type, if the end drew no more than 255 Identifiers since it drew
/// that of the request which the response answers.
pub fn matching()
    ensures { Matching }
{}

/// What an end keeps of the links that it left is what the states tell, whatever happens and at both ends: of a link that isn't
/// joined, going back over the states, the other end was without it in one since this end left it, or this end never had it, exactly
/// where nothing bars this end from joining it.
pub fn remembered()
    ensures { Remembered }
{}

/// Clauses on links that give each packet once at most, so that a taken packet is under way no longer and one may be lost.
///
/// - `included`: both ends come to nothing else: to each list of such events there is one by which they have the same links, marks,
///   waits and deeds, and no less is under way.
/// - `crossing`, `kept`: so both laws hold there too.
pub fn included()
    ensures included { Included }
    ensures crossing { CrossingOnce }
    ensures kept { KeptOnce }
{}
