//! Laws of labels: each is the contract of a function that does nothing.

ghost use Rattle.backup_label.specs.Laws.{TextsHaveOneLabel, LabelsAreNotRefused};
ghost use Rattle.backup_label.specs.Laws.{OneLineIsRefused, WrittenLabelsAreRead};
ghost use Rattle.backup_label.specs.Laws.{TimesHaveNoLineEnd};

/// A text is one label's, and then no line of it is refused; of each other text one line is the
/// first that is.
pub fn labels_are_read_in_one_way()
    ensures one { TextsHaveOneLabel }
    ensures apart { LabelsAreNotRefused }
    ensures first { OneLineIsRefused }
{}

/// What `write_label` gives is that label's text, where its texts have no line end, as those of
/// `time_text` haven't.
pub fn written_labels_are_read()
    ensures written { WrittenLabelsAreRead }
    ensures times { TimesHaveNoLineEnd }
{}
