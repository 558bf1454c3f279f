// Laws of the table file.
ghost use Rattle.commit_disk.specs.Words.{VerdictsAgree, HoldsOnce};

/// An image holds one table at most, and so its first closed gate is at one place.
pub fn holds_once()
    ensures { HoldsOnce }
{}

/// Of an image and a text there is one verdict, and so `attach` answers each exactly where it tells the truth.
pub fn verdicts_agree()
    ensures { VerdictsAgree }
{}
