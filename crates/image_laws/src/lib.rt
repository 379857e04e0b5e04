// Laws of images: nothing here is code.
#![tactic(auto)]
