// The values of a line: what decoding gives and encoding takes, in definitions alone (specs/Decode.antt and specs/Encode.antt).
#![tactic(auto)]
