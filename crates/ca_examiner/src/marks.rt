//! Marks of nets.

ghost use Rattle.std.specs.Prelude.{◌≡◌, ◌<◌, length, false};
ghost use Rattle.std.specs.List.{All};
ghost use Rattle.ca_examiner.specs.code.Marks.{IsMarked, MarksIf, MarksListed};

// Takes all marks away.
pub(crate) fn unmark(marks: &mut Vec<bool>)
    ensures length { length marks.new.items ≡ length marks.old.items }
    ensures none { All (λ mark. mark ≡ false) marks.new.items }
{
    marks.fill(false);
}

// Marks the net, if it has a mark in the other list.
pub(crate) fn mark_if(marks: &mut Vec<bool>, others: &[bool], net: usize)
    requires within { net < length marks.old.items }
    requires as_many { length others.now ≡ length marks.old.items }
    ensures { MarksIf others.now net marks.old.items marks.new.items }
{
    if others[net] {
        marks[net] = true;
    }
}

// Marks those of the nets that have a mark in the other list.
pub(crate) fn mark_listed(marks: &mut Vec<bool>, others: &[bool], nets: &[u32])
    requires within { All (λ net. net < length marks.old.items) nets.now }
    requires as_many { length others.now ≡ length marks.old.items }
    ensures { MarksListed others.now nets.now marks.old.items marks.new.items }
{
    for net in nets {
        mark_if(marks, others, *net as usize);
    }
}
