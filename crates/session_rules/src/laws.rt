//! What the rules mean, proved of all sessions, and worked sessions, which compute: the calls do
//! nothing.

ghost use Rattle.session_rules.specs.AnySession.{StaysRightInParts, StaysRightInSessions};
ghost use Rattle.session_rules.specs.Meaning.{FollowedIsASession, FollowedIsSo, FollowedPartContinues, LaterEntriesChangeNoPart, LaterEntriesChangeNothing};
ghost use Rattle.session_rules.specs.Meaning.{MarkedAsksForAll, OneOutcome, ServedIsASession, ServedIsSo, ServedPartContinues, SessionsTakeAtMost};
ghost use Rattle.session_rules.specs.Recovery.{RecoversInSessions};
ghost use Rattle.session_rules.specs.Wanted.{RequestsAreWanted};
ghost use Rattle.session_rules.specs.SubRun.{PlacesFollowReports, ReportsGoOn, SuccessiveReports};
ghost use Rattle.session_rules.specs.SubRuns.{SessionsAreRuns};
ghost use Rattle.session_rules.specs.Worked.{DoubledIsAskedThrice, HeaderIsTorn, InventoryIsAdopted, InventoryIsServed, OtherVersionIsRefused, SubscriptionIsFollowed, SubscriptionIsFulfilled, TurnsAreTaken};
ghost use Rattle.session_rules.specs.WorkedEnds.{IdleTurnsEnd, LastOctetsEnd, PeerEnds, RequestsAreAnswered, RetriesAreHeard, RetriesCross, TooLargeIsAnswered};
ghost use Rattle.session_rules.specs.WorkedEnds.{ValidatorAnswers, ValidatorEnds, ValidatorHearsErrors, ValidatorRetries, WantedReportsEnd};
ghost use Rattle.session_rules.specs.WorkedSubscriptions.{ClearingIsTaken, SubscriptionIsDenied, SubscriptionIsReused, SubscriptionIsTaken, SubscriptionWaits, SubscriptionsAreListed};
ghost use Rattle.session_rules.specs.WorkedFaults.{CutsAreTorn, FaultsAreAnswered, FaultsAreRefused, FaultsAreRefusedByValidator, LastAttributeIsAnswered, LastMessageIsRefused};

/// At the same places of a chronicle a collector writes the same octets, and stands the same.
pub fn one_outcome()
    ensures law { OneOutcome }
{}

/// Entries after the places of a session change nothing of it.
pub fn later_entries_change_nothing()
    ensures law { LaterEntriesChangeNothing }
{}

/// Entries after its places change nothing of a session that broke off.
pub fn later_entries_change_no_part()
    ensures law { LaterEntriesChangeNoPart }
{}

/// The session of a collector, as a function of its places, is the session.
pub fn served_is_so()
    ensures law { ServedIsSo }
{}

/// What the function gives of a collector is a session of it.
pub fn served_is_a_session()
    ensures law { ServedIsASession }
{}

/// A session of a collector that broke off is the beginning of one that goes to its end.
pub fn served_part_continues()
    ensures law { ServedPartContinues }
{}

/// The session of a validator, as a function, is the session.
pub fn followed_is_so()
    ensures law { FollowedIsSo }
{}

/// What the function gives of a validator is a session of it.
pub fn followed_is_a_session()
    ensures law { FollowedIsASession }
{}

/// A session of a validator that broke off is the beginning of one that goes to its end.
pub fn followed_part_continues()
    ensures law { FollowedPartContinues }
{}

/// A session that is not over has taken fewer octets than its limit allows, at either end.
pub fn sessions_take_at_most()
    ensures law { SessionsTakeAtMost }
{}

/// A report that is put for a subscription sets its place to what the report consulted, and nothing
/// else changes a place.
pub fn places_follow_reports()
    ensures law { PlacesFollowReports }
{}

/// A report of events goes on from a place of its epoch with all that match, none skipped or
/// doubled.
pub fn reports_go_on()
    ensures law { ReportsGoOn }
{}

/// Of two successive reports of events in one epoch, the later goes on where the earlier stopped.
pub fn successive_reports()
    ensures law { SuccessiveReports }
{}

/// In a whole session the first report of a subscription answers its request, and each later one
/// goes on where the last that was written stopped.
pub fn sessions_are_runs()
    ensures law { SessionsAreRuns }
{}

/// While the mark of its mirror is set, each request of a validator is for the inventory.
pub fn marked_asks_for_all()
    ensures law { MarkedAsksForAll }
{}

/// Each batch of a validator has at most one request, which asks for what its mirror wants then.
pub fn requests_are_wanted()
    ensures law { RequestsAreWanted }
{}

/// After a report that set its mirror's mark, in this session or before it, each request of a
/// validator is for the inventory until one is adopted. Until then the mark stays, so this goes on
/// in the next session.
pub fn recovers_in_sessions()
    ensures law { RecoversInSessions }
{}

/// A mirror that was right stays right in a session with an honest collector, wherever it ends.
pub fn stays_right_in_sessions()
    ensures law { StaysRightInSessions }
{}

/// So where memory runs out in the session.
pub fn stays_right_in_parts()
    ensures law { StaysRightInParts }
{}

/// A collector answers a request for the inventory, and ends as the validator closes.
pub fn inventory_is_served()
    ensures law { InventoryIsServed }
{}

/// A validator asks for the inventory, adopts it, decides and closes.
pub fn inventory_is_adopted()
    ensures law { InventoryIsAdopted }
{}

/// A batch of another version is refused.
pub fn other_version_is_refused()
    ensures law { OtherVersionIsRefused }
{}

/// A link that ends within the header of a batch tears the session.
pub fn header_is_torn()
    ensures law { HeaderIsTorn }
{}

/// A validator asks three times in vain, and then decides.
pub fn doubled_is_asked_thrice()
    ensures law { DoubledIsAskedThrice }
{}

/// What waits at each end while the ends take turns.
pub fn turns_are_taken()
    ensures law { TurnsAreTaken }
{}

/// A collector takes a subscription, and answers its request.
pub fn subscription_is_taken()
    ensures law { SubscriptionIsTaken }
{}

/// It denies the 17th.
pub fn subscription_is_denied()
    ensures law { SubscriptionIsDenied }
{}

/// It refuses a subscription whose ID is held.
pub fn subscription_is_reused()
    ensures law { SubscriptionIsReused }
{}

/// It takes both where the request clears the subscriptions first.
pub fn clearing_is_taken()
    ensures law { ClearingIsTaken }
{}

/// A collector says which subscriptions it holds, or that the answer is too large.
pub fn subscriptions_are_listed()
    ensures law { SubscriptionsAreListed }
{}

/// A subscription waits for the next batch where its report has no room beside others, or where
/// the answers are as many messages as a batch may have. It ends where its report is too large by
/// itself.
pub fn subscription_waits()
    ensures law { SubscriptionWaits }
{}

/// A collector that took a subscription fulfils it after an idle turn.
pub fn subscription_is_fulfilled()
    ensures law { SubscriptionIsFulfilled }
{}

/// A validator that subscribed follows what fulfils its subscription, and does not ask again.
pub fn subscription_is_followed()
    ensures law { SubscriptionIsFollowed }
{}

/// Each fault of a batch is refused by the CLOSE that reports its code and place.
pub fn faults_are_refused()
    ensures law { FaultsAreRefused }
{}

/// So at a validator.
pub fn faults_are_refused_by_validator()
    ensures law { FaultsAreRefusedByValidator }
{}

/// A batch of 65 messages is refused at the last.
pub fn last_message_is_refused()
    ensures law { LastMessageIsRefused }
{}

/// Each fault of a message is answered by its Error, and the session goes on.
pub fn faults_are_answered()
    ensures law { FaultsAreAnswered }
{}

/// A message of 65 attributes is answered by its Error at the last.
pub fn last_attribute_is_answered()
    ensures law { LastAttributeIsAnswered }
{}

/// A link that ends within a batch tears the session, after each octet of the batch.
pub fn cuts_are_torn()
    ensures law { CutsAreTorn }
{}

/// The server ends a session by CLOSE and by an error, unless that is not fatal.
pub fn peer_ends()
    ensures law { PeerEnds }
{}

/// Idle turns end a session at the last that is allowed, and not before.
pub fn idle_turns_end()
    ensures law { IdleTurnsEnd }
{}

/// The last octet that is allowed ends a session, and not before.
pub fn last_octets_end()
    ensures law { LastOctetsEnd }
{}

/// A collector closes after as many reports as are wanted, and not before.
pub fn wanted_reports_end()
    ensures law { WantedReportsEnd }
{}

/// The answers to two requests of one message, and to one that clears the subscriptions.
pub fn requests_are_answered()
    ensures law { RequestsAreAnswered }
{}

/// An inventory that is too large is answered by an Error.
pub fn too_large_is_answered()
    ensures law { TooLargeIsAnswered }
{}

/// A collector passes over a retry of the server, or answers it, by its state.
pub fn retries_are_heard()
    ensures law { RetriesAreHeard }
{}

/// Two retries cross, and the collector goes on by its own.
pub fn retries_cross()
    ensures law { RetriesCross }
{}

/// How sessions of a validator end.
pub fn validator_ends()
    ensures law { ValidatorEnds }
{}

/// A validator asks again at an idle turn, and once more where a retry crosses its own.
pub fn validator_retries()
    ensures law { ValidatorRetries }
{}

/// A validator answers a message that it refuses with its RESULT, and no Error.
pub fn validator_answers()
    ensures law { ValidatorAnswers }
{}

/// An Error that a validator heard is noted.
pub fn validator_hears_errors()
    ensures law { ValidatorHearsErrors }
{}
