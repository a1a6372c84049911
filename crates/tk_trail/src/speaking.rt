// What the frames of a legal trail say. Each function is there for its clause alone.
ghost use Rattle.tk_trail.specs.SpeakingLaws.{EndsAreTheLengths, OnlyValuesFollowUntilTheNextAssign, ReportSpeaksOfItsPlace, SettledSpeaksOfItsPlace, TwoAnswersUnderEachNumber, ValuesSpeakOfTheirPlace, WhatIsNotBrokenIsInOrder, WhatIsStillIsSaidOfNow};

/// A sent frame says what there is to say at its place: a Settled where nothing is broken, a Report where something is.
pub fn frames_speak_of_their_places()
    ensures settled { SettledSpeaksOfItsPlace }
    ensures report { ReportSpeaksOfItsPlace }
    ensures values { ValuesSpeakOfTheirPlace }
{}

/// Behind a Report, or a Settled with `last`, nothing but Values is sent until the next Assign.
pub fn only_values_follow_until_the_next_assign()
    ensures { OnlyValuesFollowUntilTheNextAssign }
{}

/// At the ends the places are the lengths of the parts.
pub fn the_ends_are_the_lengths()
    ensures { EndsAreTheLengths }
{}

/// Under one sequence number a monitor answers twice at most.
pub fn two_answers_under_each_number()
    ensures { TwoAnswersUnderEachNumber }
{}

/// Where a trail is still, from each place behind its last Assign on it has the places and the Assigns that it has there.
pub fn what_is_still_is_said_of_now()
    ensures { WhatIsStillIsSaidOfNow }
{}

/// Where nothing is broken, each member's level is at least that of each outsider.
pub fn what_is_not_broken_is_in_order()
    ensures { WhatIsNotBrokenIsInOrder }
{}
