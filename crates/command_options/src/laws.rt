//! What the definitions mean, proved of all words: the calls do nothing.

ghost use Rattle.command_options.specs.Collect.{OneCollect, TakenIsCollect};
ghost use Rattle.command_options.specs.Follow.{OneFollow, TakenIsFollow};
ghost use Rattle.command_options.specs.Worked.{FewestOfCollect, FewestOfFollow, NamesOfCollect, RefusedOfCollect, RefusedOfFollow};

/// Words that `clap` takes for `collect` say options.
pub fn taken_is_collect()
    ensures law { TakenIsCollect }
{}

/// Words after `collect` say one value of options at most.
pub fn one_collect()
    ensures law { OneCollect }
{}

/// Words that `clap` takes for `follow` say options, where they have a word of a kind and one of
/// `yes` and `no`.
pub fn taken_is_follow()
    ensures law { TakenIsFollow }
{}

/// Words after `follow` say one value of options at most.
pub fn one_follow()
    ensures law { OneFollow }
{}

/// The fewest words of `collect`, and the defaults.
pub fn fewest_of_collect()
    ensures law { FewestOfCollect }
{}

/// Names of files after options and after `--`.
pub fn names_of_collect()
    ensures law { NamesOfCollect }
{}

/// Words that are refused after `collect`.
pub fn refused_of_collect()
    ensures law { RefusedOfCollect }
{}

/// The fewest words of `follow`, and the defaults.
pub fn fewest_of_follow()
    ensures law { FewestOfFollow }
{}

/// Words that are refused after `follow`.
pub fn refused_of_follow()
    ensures law { RefusedOfFollow }
{}
