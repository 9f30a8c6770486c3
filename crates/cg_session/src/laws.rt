ghost use Rattle.cg_session.specs.Laws.{AnswersAreOne, EveryBuildHolds, PlaysAreOne, SessionHolds};

use cg_desc::faults_are_ordered;
use cg_keep::{a_build_is_one, what_is_built_means};

/// Files have one answer, and commands are played in one way.
pub fn a_session_is_one()
    ensures answers { AnswersAreOne }
    ensures plays { PlaysAreOne }
{
    a_build_is_one();
    faults_are_ordered();
}

/// Behind the commands of a session the store holds the outputs of the last good build; and behind each good build just what is written of
/// the files as they are, with its meaning.
pub fn a_session_means()
    ensures holds { SessionHolds }
    ensures builds { EveryBuildHolds }
{
    a_build_is_one();
    what_is_built_means();
}
