//! Laws of texts, runs and histories, over only the definitions.

ghost use Rattle.std.specs.Prelude.{◌≡◌, [], ◌∷◌, ◌++◌, ℕ, List, Bool, Result, map};
ghost use Rattle.osb_frames.specs.declared.limits.Limits.{Limits};
ghost use Rattle.osb_frames.specs.Calls.{Call};
ghost use Rattle.osb_frames.specs.Cuts.{Message, End, Cuts};
ghost use Rattle.osb_replies.specs.Text.{reply_text};
ghost use Rattle.osb_broker.specs.Machine.{Machine};
ghost use Rattle.osb_orders.specs.Lives.{Lives};
ghost use Rattle.osb_broker.specs.Connection.{ConnectionText, Run, replies_of};
ghost use Rattle.osb_catalog.specs.Rules.{Rules};
ghost use Rattle.osb_laws.specs.AskedAgain.{AskedAgainStays};
ghost use Rattle.osb_broker.specs.declared.fault.ServeFault.{ServeFault};
ghost use Rattle.osb_broker.specs.Serving.{EachWasNeeded, IsBounded, ReadsOf};
ghost use Rattle.osb_broker.specs.Steps.{machine, capped};
ghost use Rattle.osb_broker.specs.Refusals.{NeverFails, FailuresStay, MarksShow, OutputShowsAll, OutputsShowAll};
ghost use Rattle.osb_broker.specs.Resend.{RepeatsActOnce, LeadsToOne, RunsKeepLives};
ghost use Rattle.osb_broker.specs.Apart.{InstancesAreApart};
ghost use Rattle.osb_broker.specs.ActsOnce.{AttemptsActOnce, ConnectionsLeaveOne, PatientClientsActOnce, RequestsActOnce, RequestsActAtMostOnce, StopsAreAttempts};
ghost use Rattle.osb_broker.specs.Reported.{RequestsActOnceBeside, RequestsActAtMostOnceBeside, ReportedRequestsActOnce, ReportedRequestsActAtMostOnce};
ghost use Rattle.osb_broker.specs.Counted.{RequestsOpenOne};
ghost use Rattle.osb_broker.specs.Conversations.{EpisodesAreHistories, EpisodesGoOn};
ghost use Rattle.osb_broker.specs.Begun.{GroupsAreConversations};
ghost use Rattle.osb_broker.specs.Replied.{RepliedRequestsActOnce, SentRequestsActAtMostOnce};
ghost use Rattle.osb_broker.specs.Exchanges.{OneRequestEach, ConnectionsByThemselves, GroupsAreExchanges, OpenGroupsAreExchanges, RunsGoOn};
ghost use Rattle.osb_broker.specs.Asked.{AskedAgainActsOnce, AskedAgainActsAtMostOnce, AskedAgainOpensOne};
ghost use Rattle.osb_broker.specs.Shards.{ShardsAreApart, ShardsKeepOut, UnnamedMayBeLeftOut, ShardsAreOne, HistoriesAreOne, ExchangesAreOne};
ghost use Rattle.osb_broker.specs.Errors.{ErrorsStay};
ghost use Rattle.osb_broker.specs.Bodies.{RepliesAreObjects, FaultsAreObjects};
ghost use Rattle.osb_broker.specs.Trimmed.{RunsStay, EpisodesStay, ExchangesStay};
ghost use Rattle.osb_broker.specs.Logins.{UnknownLearnNothing, AsksHaveLogins, PlatformReportsNothing};

use osb_asks::laws::{never_memory, one_place, valid_texts};
use osb_laws::{asked_again, never_500};

/// A connection's texts, and the lives after it, are those that the machine gives to the
/// requests and the end of its cut, with the same marks. So they are determined by the bytes and
/// the marks.
pub fn texts_are_of_the_cut()
    ensures { (machine : Machine Lives) (limits : Limits) (k : ℕ) (s : Lives) (bytes : List ℕ)
        (requests : List Message) (end : End) (marks : List Bool) (texts : List (List ℕ))
        (t : Lives) →
        Cuts limits k bytes requests end → ConnectionText machine limits k s bytes marks texts t →
        (texts ≡ map reply_text (replies_of machine k s requests end marks).0)
        × (t ≡ (replies_of machine k s requests end marks).1) }
{}

/// A run goes on with one connection more: who serves one connection after another serves a run.
pub fn runs_go_on()
    ensures { (machine : Machine Lives) (limits : Limits) (k : ℕ) (s : Lives)
        (connections : List (List ℕ)) (marks : List (List Bool)) (outputs : List (List (List ℕ)))
        (t : Lives)
        (bytes : List ℕ) (more : List Bool) (texts : List (List ℕ)) (u : Lives) →
        Run machine limits k s connections marks outputs t →
        ConnectionText machine limits k t bytes more texts u →
        Run machine limits k s (connections ++ bytes ∷ []) (marks ++ more ∷ [])
        (outputs ++ texts ∷ []) u }
{}

/// What is said of each read of a connection bounds them all: no more is taken than a head and a body
/// past the start of the last request that was looked for, in at most one read for each byte and one
/// more.
pub fn reads_are_bounded()
    ensures { (limits : Limits) (k room : ℕ) (result : Result (Unit {0}) ServeFault)
        (calls : List Call) →
        ReadsOf result calls → EachWasNeeded limits k room calls → IsBounded limits k room calls }
{}

/// The broker answers nothing with the status 500 but a request that met a refusal of memory or of
/// the store, also where any reply may find no room (`capped`).
pub fn never_fails()
    ensures machine { (rules : Rules) → NeverFails (machine rules) }
    ensures capped { (rules : Rules) → NeverFails (capped rules) }
{
    never_500();
    never_memory();
}

/// A reply with the status 500 leaves the lives. So what was put out on a connection, or on each of a
/// list, determines which requests met a refusal, the texts, and the lives after them.
pub fn refusals_show()
    ensures stays { (rules : Rules) → FailuresStay (machine rules) }
    ensures capped_stays { (rules : Rules) → FailuresStay (capped rules) }
    ensures marks { (rules : Rules) → MarksShow (machine rules) }
    ensures capped_marks { (rules : Rules) → MarksShow (capped rules) }
    ensures output { (rules : Rules) → OutputShowsAll (machine rules) }
    ensures capped_output { (rules : Rules) → OutputShowsAll (capped rules) }
    ensures outputs { (rules : Rules) → OutputsShowAll (machine rules) }
    ensures capped_outputs { (rules : Rules) → OutputsShowAll (capped rules) }
{
    never_fails();
}

/// Connections of one request each leave the lives that the list without direct repeats leads to
/// where nothing is refused, whatever was refused. There is one such map of lives, and it is well
/// formed. `again` is what this rests on: an ask whose step was taken changes nothing when it is asked
/// again at once.
pub fn resend()
    ensures once { RepeatsActOnce }
    ensures one { LeadsToOne }
    ensures kept { RunsKeepLives }
    ensures again { AskedAgainStays }
{
    asked_again();
    valid_texts();
}

/// The connections that ask something of an instance have the texts, and leave the life, that they
/// have only.
pub fn apart()
    ensures { InstancesAreApart }
{
    valid_texts();
}

/// Clients make attempts, each of which is answered, fails, or is carried out though its answer is
/// lost, while the machine stops and starts again. The lives at the end are those of the attempts that
/// acted, without direct repeats. Where a client makes each request about an instance until it is
/// answered, the instance's life is the one that these requests leave, each made once; and one request
/// that is made again and again acts at most once, and once where it was answered. `stops` says what
/// makes a request around which the machine stopped such an attempt.
pub fn histories()
    ensures acted { AttemptsActOnce }
    ensures one { ConnectionsLeaveOne }
    ensures patient { PatientClientsActOnce }
    ensures answered { RequestsActOnce }
    ensures most { RequestsActAtMostOnce }
    ensures stops { StopsAreAttempts }
{
    valid_texts();
}

/// A request that is made again and again until it is answered acts once, also where the backend
/// reports in between that the order which it opened succeeded, and where it is fetched and polled: at
/// most once in any case, and once where it was answered. `beside` and `beside_most` say so with
/// whatever else leaves the instance its life in between. Whatever is reported, the request opens at
/// most one order, and one more for each failure that the backend reports.
pub fn reported()
    ensures answered { ReportedRequestsActOnce }
    ensures most { ReportedRequestsActAtMostOnce }
    ensures beside { RequestsActOnceBeside }
    ensures beside_most { RequestsActAtMostOnceBeside }
    ensures opens { RequestsOpenOne }
{}

/// Clients come one after the other, and between them the program stops and starts, each time from the
/// lives that it left. With one request a client, what was read of the clients and what they were sent
/// is that of one history of attempts. So what `histories` and `reported` say holds of it. With any
/// number of requests a client, the lives are those that the conversations lead to, one after the other.
pub fn episodes()
    ensures histories { EpisodesAreHistories }
    ensures together { EpisodesGoOn }
{}

/// Clients whose requests waited, and that were then sent the outputs that the broker gives for all of them,
/// were served one after the other, in the order of the outputs. So what `episodes` says holds of them.
pub fn together()
    ensures { GroupsAreConversations }
{}

/// A request about an instance that clients make again and again, one request each, acted once where one
/// of them was sent an answer other than the fixed 500, and at most once in any case. So it is however
/// the program stopped and started in between, also where the backend reported that the order which the
/// request opened succeeded, and where the instance was fetched and polled.
pub fn replied()
    ensures once { RepliedRequestsActOnce }
    ensures most { SentRequestsActAtMostOnce }
{}

/// Brokers that each have some of the instances, by any function from ids to brokers, and are sent
/// what is asked of these, are together one broker: their texts are those of one run of all
/// connections, and each instance has the life that its broker leaves. So are their histories and
/// their exchanges, in which each stops and starts when it does. One of them serves what it is sent as it would among
/// all others, and leaves the instances that aren't its own. The backend's listing is of the lives
/// of one broker; like all that names no instance, it may be left out of a run.
pub fn shards()
    ensures apart { ShardsAreApart }
    ensures out { ShardsKeepOut }
    ensures unnamed { UnnamedMayBeLeftOut }
    ensures one { ShardsAreOne }
    ensures histories { HistoriesAreOne }
    ensures exchanges { ExchangesAreOne }
{}

/// A request that isn't answered 200, 201 or 202 leaves the lives.
pub fn errors()
    ensures { ErrorsStay }
{}

/// The body of each reply is a JSON object: to a request, refused or not, from well-formed lives and by
/// sound settings whose catalog is one, and to a framing fault.
pub fn bodies()
    ensures replies { RepliesAreObjects }
    ensures faults { FaultsAreObjects }
{
    osb_laws::bodies();
}

/// A request that names a door and lacks its logins has the fixed answer 401, the same from any lives,
/// and leaves these. It is never refused memory.
pub fn unknown()
    ensures { UnknownLearnNothing }
{}

/// Orders are listed and reported only with a login of the backend, and all else is asked with one of
/// the platform. So if platform and backend share no login, nothing that has one of the platform
/// reports an order.
pub fn logins()
    ensures own { AsksHaveLogins }
    ensures platform { PlatformReportsNothing }
{
    one_place();
}

/// Connections, one after the other, have the same outputs from trimmed lives as from the lives, whatever
/// their bytes are and whichever requests are refused. All that is said with clients over stops and starts
/// could have been said without trimming, and the other way round.
pub fn trimmed()
    ensures runs { RunsStay }
    ensures episodes { EpisodesStay }
    ensures exchanges { ExchangesStay }
{}

/// Clients are connected at the same time, and each makes any number of requests, over stops and
/// starts. With one request each, their exchanges are conversations; those of a client by itself are its
/// connection, and those of clients that are answered together come one after the other. What is asked
/// of an instance again and again acts once where it was answered, whichever connections carry it, at
/// most once in any case, and opens one order, and one more for each failure that is reported.
pub fn exchanges()
    ensures one_each { OneRequestEach }
    ensures alone { ConnectionsByThemselves }
    ensures groups { GroupsAreExchanges }
    ensures open_groups { OpenGroupsAreExchanges }
    ensures runs { RunsGoOn }
    ensures once { AskedAgainActsOnce }
    ensures most { AskedAgainActsAtMostOnce }
    ensures opens { AskedAgainOpensOne }
{}
