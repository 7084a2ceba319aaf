// Which levels of a tree's nesting are branches. The others are next nodes.
ghost use Rattle.std.specs.Prelude.{◌≡◌, ◌≤◌, ◌<◌, ◌+◌, ◌-◌, ◌∷◌, [], cond, length, IfSome, IfNone};
ghost use Rattle.proof_tree.specs.declared.tree.Version.{Version};
ghost use Rattle.proof_text.specs.Symbols.{branches};
ghost use Rattle.proof_text.specs.Nesting.{open_branches};

// Levels are counted from 1.
#[derive(Drop)]
pub(crate) struct Levels {
    marks: [bool; 1001],
}

fn mark(marks: &mut [bool], level: u16, branch: bool)
    requires { level + 1 < length marks.old }
    ensures { (version : Version) → open_branches version marks.new (level + 1) ≡ cond branch (branches version (level + 1) ∷ open_branches version marks.old level) (open_branches version marks.old level) }
{
    marks[usize::from(level) + 1] = branch;
}

impl Levels {
    pub(crate) fn new() -> Levels
        ensures { (version : Version) → open_branches version result.marks 0 ≡ [] }
    {
        Levels {
            marks: [false; 1001],
        }
    }

    // Goes one level deeper.
    pub(crate) fn enter(&mut self, level: u16, branch: bool)
        requires { level < 1000 }
        ensures { (version : Version) → open_branches version self.new.marks (level + 1) ≡ cond branch (branches version (level + 1) ∷ open_branches version self.old.marks level) (open_branches version self.old.marks level) }
    {
        mark(&mut self.marks, level, branch);
    }

    // The deepest branch that is open at the level or above it.
    pub(crate) fn deepest(&self, level: u16) -> Option<u16>
        requires { level ≤ 1000 }
        ensures none { IfNone result ((version : Version) → open_branches version self.now.marks level ≡ []) }
        ensures same { IfSome result (λ found. (version : Version) → open_branches version self.now.marks level ≡ open_branches version self.now.marks found) }
        ensures above { IfSome result (λ found. (0 < found) × (found ≤ level)) }
        ensures open { IfSome result (λ found. (version : Version) → open_branches version self.now.marks found ≡ branches version found ∷ open_branches version self.now.marks (found - 1)) }
    {
        let mut at = level;
        while at > 0 {
            if self.marks[usize::from(at)] {
                return Some(at);
            }
            at -= 1;
        }
        None
    }
}
