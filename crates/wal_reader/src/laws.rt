//! What holds of the files of every WAL.

ghost use Rattle.wal_reader.specs.Laws.{HasOneSettings, HasSettingsOrIsRefused, HasOneRefusal};
ghost use Rattle.wal_reader.specs.Laws.{HasOneReading, EndsOrIsDamaged, HasOneDamage};
ghost use Rattle.wal_reader.specs.Laws.{HasOneReadingFrom, EndsOrIsDamagedFrom, HasOneDamageFrom};

/// The answers on a WAL's settings shut each other out, whatever its files are: they have one
/// system of settings, or are refused by one fault.
pub fn settings_are_read_in_one_way()
    ensures settings { HasOneSettings }
    ensures refused { HasSettingsOrIsRefused }
    ensures fault { HasOneRefusal }
{}

/// The answers on an archive shut each other out, whatever its files are: it has one list of
/// entries and one end, or it is damaged at one place in one way.
pub fn archive_is_read_in_one_way()
    ensures reading { HasOneReading }
    ensures ends { EndsOrIsDamaged }
    ensures damage { HasOneDamage }
{}

/// The same of what is read from a place on.
pub fn archive_is_read_in_one_way_from_a_place()
    ensures reading { HasOneReadingFrom }
    ensures ends { EndsOrIsDamagedFrom }
    ensures damage { HasOneDamageFrom }
{}
