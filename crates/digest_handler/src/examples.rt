//! The examples of the standards, computed from the definition of the credentials.

ghost use Rattle.std.specs.Prelude.{◌≡◌, ◌∷◌, [], codes, false, Ok};
ghost use Rattle.digest_handler.specs.Credentials.{digest_credentials, hex_hash, response};
ghost use Rattle.digest_handler.specs.Examples as example;
ghost use Rattle.spaces.specs.declared.roster.Method.TheVariants.{Get};
ghost use Rattle.spaces.specs.declared.terms.Algorithm.TheVariants.{Md5, Sha256};
ghost use Rattle.spaces.specs.declared.terms.Qop.TheVariants.{Auth, Missing};

/// The challenges of the examples below ask for the terms with which these are computed.
pub fn rfc_challenges()
    ensures of_2617 { example.all_terms example.field_2617
        ≡ Ok (record { terms = example.terms_2617 Auth; stale = false }) ∷ [] }
    ensures of_7616_md5 { example.all_terms (example.field_7616 (codes "MD5"))
        ≡ Ok (record { terms = example.terms_7616 Md5; stale = false }) ∷ [] }
    ensures of_7616_sha_256 { example.all_terms (example.field_7616 (codes "SHA-256"))
        ≡ Ok (record { terms = example.terms_7616 Sha256; stale = false }) ∷ [] }
{}

/// A parameter `userhash` asks for the hashed user name where it is `true`, in any letter case.
pub fn userhash_challenges()
    ensures asked { example.all_terms (example.field_7616 (codes "SHA-256, userhash=TRUE"))
        ≡ Ok (record { terms = example.with_userhash (example.terms_7616 Sha256); stale = false })
        ∷ [] }
    ensures other { example.all_terms (example.field_7616 (codes "SHA-256, userhash=yes"))
        ≡ Ok (record { terms = example.terms_7616 Sha256; stale = false }) ∷ [] }
{}

/// The example of RFC 2617, section 3.5.
pub fn rfc_2617()
    ensures a1 { hex_hash Md5 (codes "Mufasa:testrealm@host.com:Circle Of Life")
        ≡ codes "939e7578ed9e3c518a452acee763bce9" }
    ensures a2 { hex_hash Md5 (codes "GET:/dir/index.html")
        ≡ codes "39aff3a2bab6126f332b942af96d3366" }
    ensures text { digest_credentials (example.terms_2617 Auth) example.login_2617 Get
        (codes "/dir/index.html") 1 (codes "0a4f113b") ≡ example.text_2617 }
{}

/// The same where the challenge names no qop: neither count nor client's nonce play a part.
pub fn rfc_2617_without_qop()
    ensures { digest_credentials (example.terms_2617 Missing) example.login_2617 Get
        (codes "/dir/index.html") 1 (codes "0a4f113b") ≡ example.text_2617_without_qop }
{}

/// The example of RFC 7616, section 3.9.1, with MD5.
pub fn rfc_7616_md5()
    ensures { response (example.terms_7616 Md5) example.login_7616 Get
        (codes "/dir/index.html") 1 example.cnonce_7616
        ≡ codes "8ca523f5e9506fed4657c9700eebdbec" }
{}

/// The example of RFC 7616, section 3.9.1, with SHA-256.
pub fn rfc_7616_sha_256()
    ensures { response (example.terms_7616 Sha256) example.login_7616 Get
        (codes "/dir/index.html") 1 example.cnonce_7616
        ≡ codes "753927fa0e85d155564e2e272a28d1802ca10daf4496794697cf8db5856cb6c1" }
{}

/// The same where the challenge has `userhash` too: the user name is sent as 64 digits, the
/// response is that of the standard, and the text ends with `userhash=true`. The name's digest is
/// from another implementation of SHA-256.
pub fn sha_256_with_userhash()
    ensures { digest_credentials
        (example.with_userhash (example.terms_7616 Sha256)) example.login_7616 Get
        (codes "/dir/index.html") 1 example.cnonce_7616 ≡ example.text_with_userhash }
{}
