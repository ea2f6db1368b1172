// Links and sessions computed by the definitions, each a theorem in specs/. Links, Sessions and Small are written by tools/compute_vectors.py. No code.
#![tactic(auto)]
