//! What holds of every frame and every spelling. `encode` writes these spellings, and `next` reads them.

ghost use Rattle.std.specs.Prelude.{◌≡◌, ◌≤◌, ℕ, List, length};
ghost use Rattle.tk_frames.specs.declared.frame.Frame.{Frame};
ghost use Rattle.tk_frames.specs.Spelling.{IsVersion, IsFrame, IsSpelling, payload, spelling};
ghost use Rattle.tk_frames.specs.Size.{size_of, IsShort};
ghost use Rattle.tk_frames.specs.Laws.{NoSpellingBeginsAnother, WhatWasEncodedIsReadAgain};

/// No spelling begins another of the same version: two at the front of the same bytes are one.
pub fn no_spelling_begins_another()
    ensures { NoSpellingBeginsAnother }
{}

/// Each frame has one spelling in a version.
pub fn each_frame_has_one_spelling()
    ensures { (version : ℕ) (frame : Frame) (a b : List ℕ) → IsVersion version
        → IsSpelling version frame a → IsSpelling version frame b → a ≡ b }
{}

/// A spelling is answered as its frame, whatever follows it.
pub fn what_was_encoded_is_read_again()
    ensures { WhatWasEncodedIsReadAgain }
{}

/// How long the spellings of version 1 are.
pub fn sizes_in_version_1()
    ensures { (frame : Frame) → length (spelling 1 frame) ≡ size_of frame }
{}

/// A frame whose lists are within the limits of the protocol fits in both versions.
pub fn short_frames_fit()
    ensures { (version : ℕ) (frame : Frame) → IsVersion version → IsFrame frame → IsShort frame
        → length (payload version frame) ≤ 2097152 }
{}
