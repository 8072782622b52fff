// Theory alone: fields of characteristic 2, the three fields of the code, powers of alpha. Definitions and laws stand in specs/.
