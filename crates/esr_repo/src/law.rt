//! What an added entry tells of who 0.
ghost use Rattle.esr_repo.specs.Next.{CallersTold};

/// What who 0 has done after an added entry is told by the entry and its image.
pub fn entries_tell_the_caller()
    ensures { CallersTold }
{}
