// Document 01's starred panel situations, proved together as one table that grows with the crates. There is nothing to run.
#![tactic(auto)]

ghost use Rattle.std.specs.Prelude.{◌≡◌, true};
ghost use Rattle.starred.specs.Starred.{all_hold, situations};

pub fn starred_situations()
    ensures { all_hold situations ≡ true }
{}
