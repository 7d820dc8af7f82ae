//! Two keys are equal in their order exactly where what they stand for is the same. Each law is the
//! contract of a function that does nothing.

ghost use Rattle.std.specs.Prelude.{◌≡◌};
ghost use Rattle.std.specs.Ordering.{is_eq};
ghost use Rattle.spaces.specs.declared.site.Site.{Site};
ghost use Rattle.spaces.specs.ProtectionSpaces.{ProtectionSpace};
ghost use Rattle.spaces.specs.Sites.{same_site, same_space};
ghost use Rattle.space_keys.specs.declared.keys.SiteKey.{SiteKey};
ghost use Rattle.space_keys.specs.declared.keys.SpaceKey.{SpaceKey};
ghost use Rattle.space_keys.specs.Keys.{IsKeyOfSite, IsKeyOfSpace, site_cmp, space_cmp};

pub fn keys_tell_sites()
    ensures { (a b : SiteKey) (s t : Site) → IsKeyOfSite a s → IsKeyOfSite b t
        → is_eq (site_cmp a b) ≡ same_site s t }
{}

pub fn keys_tell_spaces()
    ensures { (a b : SpaceKey) (s t : ProtectionSpace) → IsKeyOfSpace a s → IsKeyOfSpace b t
        → is_eq (space_cmp a b) ≡ same_space s t }
{}
