// Two axes in one flight: two probes that share their extension, and their accounts, as definitions; and the theorem over every list of
// their calls. The code that meets them is in `two_axis_probe`.
#![tactic(auto)]
