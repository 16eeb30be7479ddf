// No code: every theorem that docs/CLAIMS.md claims, in one record (specs/Claims.antt), with one proof that names each of them.
#![tactic(auto)]
