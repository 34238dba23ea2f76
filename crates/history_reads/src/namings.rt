//! The leaf that a version names.
ghost use Rattle.std.specs.Prelude.{◌≡◌, length};
ghost use Rattle.object_records.specs.Reads.{content_of};
ghost use Rattle.history_model.specs.Dumps.{namings_by};
ghost use Rattle.history_counts.specs.Lengths.{raised_by};
ghost use Rattle.history_reads.specs.Kept.{NamesThere};

use history_counts::LeafLengths;
use object_records::Payload;

/// Notes how a version names its leaf, if its tree is one.
pub(crate) fn name_leaf(lengths: &mut LeafLengths, content: Payload<'_>)
    requires { NamesThere (length lengths.old.longest) (content_of content) }
    ensures { lengths.new ≡ record lengths.old {
      longest = raised_by lengths.old.most lengths.old.longest
          (namings_by (content_of content.entry));
    } }
{
    match content {
        Payload::Small(_) => {}
        Payload::Large(root) => lengths.name_in_root(&root),
    }
}
