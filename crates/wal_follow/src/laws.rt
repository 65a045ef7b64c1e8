//! Laws of followers: each is the contract of a function that does nothing.

ghost use Rattle.wal_follow.specs.Laws.{FollowersAgree};

use follow_laws::following_is_one;

/// However a stream was cut, those who stand behind it have read the same entries and have one
/// store.
pub fn followers_agree()
    ensures { FollowersAgree }
{
    // known: bytes are followed in one way
    following_is_one();
}
