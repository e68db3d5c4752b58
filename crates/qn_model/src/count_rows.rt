//! The laws of the text of `count`.
ghost use Rattle.std.specs.Prelude.{◌≡◌, ◌++◌, codes};
ghost use Rattle.qn_model.specs.Lines.{Ended, ReadFailed};
ghost use Rattle.qn_model.specs.CountEnding.{CountFits};
ghost use Rattle.qn_model.specs.CountText.{count_of};

/// The text of `count` for four nodes of one vote each, and views of two and of three of them: half of
/// the votes are no majority. Where the read after the last line fails, the lines before it stand.
pub fn law_half_and_majority()
    ensures ended { count_of Ended
        (codes "node 1 1\nnode 2 1\nnode 3 1\nnode 4 1\nview 1 1,2\nview 2 1,2,3\n")
        ≡ record {
          text = codes
              "view 1 votes 2 quorum 3 quorate no\nview 2 votes 3 quorum 3 quorate yes\nend 2\n";
          status = 0;
        } }
    ensures failed { count_of ReadFailed
        (codes "node 1 1\nnode 2 1\nnode 3 1\nnode 4 1\nview 1 1,2\nview 2 1,2,3\n")
        ≡ record {
          text = codes
              "view 1 votes 2 quorum 3 quorate no\nview 2 votes 3 quorum 3 quorate yes\nfault ReadFault\n";
          status = 6;
        } }
{}

/// The empty input has no view line, and is no fault.
pub fn law_empty_count()
    ensures { count_of Ended (codes "") ≡ record { text = codes "end 0\n"; status = 0 } }
{}

/// An input that was read to its end gives status 0 or 4, never 6. One of which a read failed gives status
/// 6 or 4, never 0.
pub fn law_count_ending()
    ensures { CountFits }
{}
