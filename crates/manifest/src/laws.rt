//! Laws of manifests: the contract of a function that does nothing.

ghost use Rattle.manifest.specs.Laws.{WrittenManifestsAreRead, TextsHaveOneManifest, VersionsTellSystems};

/// What `write_manifest` gives is read as the manifest that was written; what is read as a manifest
/// is read as no other one, and isn't refused; and it has no system identifier exactly where its
/// version is 1.
pub fn manifests_are_read_again()
    ensures written { WrittenManifestsAreRead }
    ensures one { TextsHaveOneManifest }
    ensures versions { VersionsTellSystems }
{}
